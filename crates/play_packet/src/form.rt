//! The description of a packet by the words of a line.
ghost use Rattle.std.specs.Prelude.{◌≡◌, ◌≤◌, ◌+◌, length, IfOk};
ghost use Rattle.play_packet.specs.Forms as forms;
ghost use Rattle.play_packet.specs.Marks.{most_number};

use crate::mark::{Field, Mark, Payload, mark_of};
use crate::places::{
    Misfit, NumberAt, Span, arrow_at, bytes_at, end_at, more_at, number_at, offset_at, refuse,
};
use crate::words::word_at;
use flat_model::Addr;
use play_line::Fault;

/// A checksum.
#[derive(Clone, Copy)]
pub(crate) enum Sum {
    /// The right checksum.
    Right,
    /// A wrong checksum.
    Wrong,
    /// This value, right or wrong.
    Given(u16),
}

/// The parsed description. A field that no word sets is `None`.
#[derive(Clone, Copy)]
pub(crate) struct Form {
    pub(crate) payload: Payload,
    /// The source and the destination. Without a datagram both ports are 0.
    pub(crate) source: Addr,
    pub(crate) destination: Addr,
    pub(crate) version: Option<u8>,
    pub(crate) ihl: Option<u8>,
    pub(crate) tos: Option<u8>,
    pub(crate) len: Option<u16>,
    pub(crate) id: Option<u16>,
    /// The three flags: the reserved one, "don't fragment" and "more fragments".
    pub(crate) reserved: bool,
    pub(crate) whole: bool,
    pub(crate) more: bool,
    /// The offset of the fragment, in bytes.
    pub(crate) offset: Option<u16>,
    pub(crate) ttl: Option<u8>,
    pub(crate) protocol: Option<u8>,
    pub(crate) sum: Sum,
    /// The start in the datagram of the data that the packet carries, and its length.
    pub(crate) start: Option<NumberAt>,
    pub(crate) size: Option<NumberAt>,
    pub(crate) udp_len: Option<u16>,
    pub(crate) udp_sum: Sum,
}

impl Sum {
    /// Returns whether a word has set it.
    fn is_said(self) -> bool
        ensures { result ≡ forms.is_said self }
    {
        match self {
            Sum::Right => false,
            Sum::Wrong | Sum::Given(_) => true,
        }
    }
}

impl Form {
    /// Returns the form before the words after the bytes.
    fn fresh(payload: Payload, source: Addr, destination: Addr) -> Form
        ensures { result ≡ forms.fresh payload source destination }
    {
        Form {
            payload,
            source,
            destination,
            version: None,
            ihl: None,
            tos: None,
            len: None,
            id: None,
            reserved: false,
            whole: false,
            more: false,
            offset: None,
            ttl: None,
            protocol: None,
            sum: Sum::Right,
            start: None,
            size: None,
            udp_len: None,
            udp_sum: Sum::Right,
        }
    }

    /// Returns whether a word has set this field already.
    fn has_number(self, field: Field) -> bool
        ensures { result ≡ forms.has_number self field }
    {
        match field {
            Field::Version => self.version.is_some(),
            Field::Ihl => self.ihl.is_some(),
            Field::Tos => self.tos.is_some(),
            Field::Len => self.len.is_some(),
            Field::Id => self.id.is_some(),
            Field::Ttl => self.ttl.is_some(),
            Field::Protocol => self.protocol.is_some(),
            Field::Sum => self.sum.is_said(),
            Field::UdpLen => self.udp_len.is_some(),
            Field::UdpSum => self.udp_sum.is_said(),
        }
    }

    /// Returns whether a word has set this already.
    fn has(self, mark: Mark) -> bool
        ensures { result ≡ forms.has self mark }
    {
        match mark {
            Mark::Number(field) => self.has_number(field),
            Mark::Offset => self.offset.is_some(),
            Mark::Start => self.offset.is_some() || self.more,
            Mark::Size => self.size.is_some(),
            Mark::Reserved => self.reserved,
            Mark::Whole => self.whole,
            Mark::More => self.more || self.start.is_some(),
            Mark::BadSum => self.sum.is_said(),
            Mark::BadUdp | Mark::NoSum => self.udp_sum.is_said(),
        }
    }

    /// Returns the form with this number in a field.
    fn holding(self, field: Field, value: u32) -> Form
        requires { value ≤ most_number field }
        ensures { result ≡ forms.holding self field value }
    {
        let mut form = self;
        match field {
            Field::Version => form.version = Some(value as u8),
            Field::Ihl => form.ihl = Some(value as u8),
            Field::Tos => form.tos = Some(value as u8),
            Field::Len => form.len = Some(value as u16),
            Field::Id => form.id = Some(value as u16),
            Field::Ttl => form.ttl = Some(value as u8),
            Field::Protocol => form.protocol = Some(value as u8),
            Field::Sum => form.sum = Sum::Given(value as u16),
            Field::UdpLen => form.udp_len = Some(value as u16),
            Field::UdpSum => form.udp_sum = Sum::Given(value as u16),
        }
        form
    }

    /// Reads the number of a field.
    fn with_field(self, field: Field, text: &[u8], at: usize) -> Result<(Form, usize), Misfit>
        ensures { result ≡ forms.with_field self field text.now at }
    {
        let (number, after) = number_at(field.fault(), field.most(), text, at)?;
        Ok((self.holding(field, number.value), after))
    }

    /// Reads the number after `off`.
    fn with_offset(self, text: &[u8], at: usize) -> Result<(Form, usize), Misfit>
        ensures { result ≡ forms.with_offset self text.now at }
    {
        let (offset, after) = offset_at(text, at)?;
        let offset = Some(offset.value as u16);
        Ok((Form { offset, ..self }, after))
    }

    /// Reads the number after `at`, and whether more fragments follow.
    fn with_start(self, text: &[u8], at: usize) -> Result<(Form, usize), Misfit>
        ensures { result ≡ forms.with_start self text.now at }
    {
        let (start, after) = offset_at(text, at)?;
        let (more, after) = more_at(text, after)?;
        let offset = Some(start.value as u16);
        let start = Some(start);
        Ok((
            Form {
                offset,
                start,
                more,
                ..self
            },
            after,
        ))
    }

    /// Reads the number after `size`.
    fn with_size(self, text: &[u8], at: usize) -> Result<(Form, usize), Misfit>
        ensures { result ≡ forms.with_size self text.now at }
    {
        let (size, after) = number_at(Fault::NoSize, 65_515, text, at)?;
        let size = Some(size);
        Ok((Form { size, ..self }, after))
    }

    /// Sets a flag, or a checksum that has no number after it. For any other word the form is unchanged.
    fn flagged(self, mark: Mark) -> Form
        ensures { result ≡ forms.flagged self mark }
    {
        match mark {
            Mark::Reserved => Form {
                reserved: true,
                ..self
            },
            Mark::Whole => Form {
                whole: true,
                ..self
            },
            Mark::More => Form { more: true, ..self },
            Mark::BadSum => Form {
                sum: Sum::Wrong,
                ..self
            },
            Mark::BadUdp => Form {
                udp_sum: Sum::Wrong,
                ..self
            },
            Mark::NoSum => Form {
                udp_sum: Sum::Given(0),
                ..self
            },
            Mark::Number(_) | Mark::Offset | Mark::Start | Mark::Size => self,
        }
    }

    /// Returns the form after a word with this meaning. Its arguments begin at position `at`.
    fn with_mark(self, mark: Mark, text: &[u8], at: usize) -> Result<(Form, usize), Misfit>
        ensures { result ≡ forms.with_mark self mark text.now at }
    {
        match mark {
            Mark::Number(field) => self.with_field(field, text, at),
            Mark::Offset => self.with_offset(text, at),
            Mark::Start => self.with_start(text, at),
            Mark::Size => self.with_size(text, at),
            Mark::Reserved | Mark::Whole | Mark::More | Mark::BadSum | Mark::BadUdp | Mark::NoSum =>
                Ok((self.flagged(mark), at)),
        }
    }

    /// Returns the form after one more word, which begins at this position, and its arguments.
    #[tactic(auto, unfolding(crate::specs::Forms::with_word_at))]
    fn with_word(self, word: &[u8], text: &[u8], at: usize) -> Result<(Form, usize), Misfit>
        requires { at + length word.now ≤ length text.now }
        ensures { result ≡ forms.with_word_at self word.now text.now at }
    {
        let Some(mark) = mark_of(self.payload, word) else {
            return refuse(Fault::UnknownWord, at);
        };
        if self.has(mark) {
            return refuse(Fault::GivenTwice, at);
        }
        self.with_mark(mark, text, at + word.len() + 1)
    }

    /// Returns the form after the words from a position on.
    #[tactic(auto, using(crate::proofs::MarkLemmas::marks_next))]
    fn with_marks(self, text: &[u8], at: usize) -> Result<Form, Misfit>
        ensures { result ≡ forms.form_after (length text.now) text.now self at }
    {
        let mut form = self;
        let mut place = at;
        let mut rounds = text.len();
        while rounds > 0 {
            let Some(word) = word_at(text, place) else {
                return Ok(form);
            };
            match form.with_word(word, text, place) {
                Ok((next, after)) => {
                    form = next;
                    place = after;
                }
                Err(e) => return Err(e),
            }
            rounds -= 1;
        }
        Ok(form)
    }

    /// Parses the text after `rx udp` or `rx raw`. Also returns the word with the bytes.
    pub(crate) fn read(payload: Payload, text: &[u8]) -> Result<(Form, Span), Misfit>
        ensures is { result ≡ forms.form_of payload text.now }
        ensures inside { IfOk result (λ t. t.1.place + t.1.len ≤ length text.now) }
    {
        let (source, at) = end_at(payload, text, 7)?;
        let at = arrow_at(text, at)?;
        let (destination, at) = end_at(payload, text, at)?;
        let (bytes, at) = bytes_at(text, at)?;
        let form = Form::fresh(payload, source, destination).with_marks(text, at)?;
        Ok((form, bytes))
    }
}
