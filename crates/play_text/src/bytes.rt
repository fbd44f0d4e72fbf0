//! The bytes of replies in readable form.
ghost use Rattle.std.specs.Prelude.{◌≡◌, ◌+◌, ◌-◌, ◌*◌, ◌/◌, ◌<◌, ◌≤◌, ◌++◌, ◌==◌, ◌&&◌, ◌||◌, not, length, take, drop, position, min, nat_lt, decimal, codes, IfSome};
ghost use Rattle.play_text.specs.Bytes as bytes;

use request::put_long;
use script_loop::Buffer;

/// The most digits that are printed in full: those of 64 bytes.
const WHOLE: usize = 128;

/// The number of leading digits that are printed of longer data: those of 32 bytes.
const FRONT: usize = 64;

/// The number of final digits that are printed of longer data: those of 8 bytes.
const BACK: usize = 16;

/// The most bytes that are printed as one text.
const MOST_TEXT: usize = 64;

/// How the bytes of a reply are printed.
#[derive(Clone, Copy)]
pub enum ByteForm {
    /// All of their digits.
    Digits,
    /// Digits, abbreviated if there are more than 64 bytes.
    Cut,
    /// Abbreviated likewise, and as a text if a text can represent all of them.
    Texts,
}

/// Returns whether a byte is printable ASCII.
fn is_printed(byte: u8) -> bool
    ensures { result ≡ bytes.is_printed byte }
{
    b' ' <= byte && byte <= b'~'
}

/// Returns whether a text may contain the byte.
fn is_readable(byte: u8) -> bool
    ensures { result ≡ bytes.is_readable byte }
{
    is_printed(byte) || (byte == b'\n' || (byte == b'\r' || (byte == b'\t' || byte == 0)))
}

/// Returns the index of the first printable ASCII byte.
fn first_printed(text: &[u8]) -> Option<usize>
    ensures { result ≡ position (λ byte. bytes.is_printed byte) text.now }
{
    text.iter().position(|byte| is_printed(*byte))
}

/// Returns the index of the first byte that a text may not contain.
fn first_unreadable(text: &[u8]) -> Option<usize>
    ensures { result ≡ position (λ byte. not (bytes.is_readable byte)) text.now }
{
    text.iter().position(|byte| !is_readable(*byte))
}

/// Returns whether bytes are printed as a text: a text may contain all of them, and at least one is printable.
fn are_readable(text: &[u8]) -> bool
    ensures { result ≡ bytes.are_readable text.now }
{
    first_printed(text).is_some() && first_unreadable(text).is_none()
}

/// Appends a byte as it is written in a text of a script.
fn put_written<const N: usize>(text: &mut Buffer<N>, byte: u8)
    requires { length text.old + 2 ≤ N }
    ensures items { text.new ≡ text.old ++ bytes.written byte }
    ensures len { length text.new ≤ length text.old + 2 }
{
    match byte {
        b'\n' => text.append(b"\\n"),
        b'\r' => text.append(b"\\r"),
        b'\t' => text.append(b"\\t"),
        0 => text.append(b"\\0"),
        b'"' | b'\\' => text.append(&[b'\\', byte]),
        _ => text.push(byte),
    }
}

/// Appends bytes as a text of a script.
fn put_quoted<const N: usize>(text: &mut Buffer<N>, items: &[u8])
    requires { length text.old + (2 * length items.now + 2) ≤ N }
    ensures items { text.new ≡ text.old ++ bytes.quoted items.now }
    ensures len { length text.new ≤ length text.old + (2 * length items.now + 2) }
{
    text.push(b'"');
    for byte in items {
        put_written(text, *byte);
    }
    text.push(b'"');
}

/// Appends the bytes that these digits encode: as a text, or as the digits.
fn put_digits<const N: usize>(text: &mut Buffer<N>, texts: bool, digits: &[u8])
    requires few { length digits.now ≤ 128 }
    requires space { length text.old + (length digits.now + 2) ≤ N }
    ensures items { text.new ≡ text.old ++ bytes.digits_text texts digits.now }
    ensures len { length text.new ≤ length text.old + (length digits.now + 2) }
{
    if !texts {
        text.append(digits);
        return;
    }
    let mut text_bytes = [0; MOST_TEXT];
    let items = &mut text_bytes[..digits.len() / 2];
    match hex::decode_to_slice(digits, &mut *items) {
        Ok(()) if are_readable(items) => put_quoted(text, items),
        _ => text.append(digits),
    }
}

/// Returns the digits of the first bytes of longer data.
fn front_of(digits: &[u8]) -> &[u8]
    requires { 128 < length digits.now }
    ensures is { result.now ≡ take FRONT digits.now }
    ensures len { length result.now ≡ 64 }
{
    &digits[..FRONT]
}

/// Returns the digits of the last bytes of longer data.
fn back_of(digits: &[u8]) -> &[u8]
    requires { 128 < length digits.now }
    ensures is { result.now ≡ drop (length digits.now - BACK) digits.now }
    ensures len { length result.now ≡ 16 }
{
    &digits[digits.len() - BACK..]
}

/// Appends the number of bytes that these digits encode.
fn put_len<const N: usize>(text: &mut Buffer<N>, digits: &[u8])
    requires { length text.old + 29 ≤ N }
    ensures items { text.new ≡ text.old ++ (codes " (" ++ decimal (length digits.now / 2) ++ codes " bytes)") }
    ensures len { length text.new ≤ length text.old + 29 }
{
    text.append(b" (");
    put_long(text, (digits.len() / 2) as u64);
    text.append(b" bytes)");
}

/// Appends the first and the last bytes of longer data, and their total number.
fn put_cut<const N: usize>(text: &mut Buffer<N>, texts: bool, digits: &[u8])
    requires many { 128 < length digits.now }
    requires space { length text.old + 128 ≤ N }
    ensures items { text.new ≡ text.old ++ bytes.cut_text texts digits.now }
    ensures len { length text.new ≤ length text.old + 128 }
{
    put_digits(text, texts, front_of(digits));
    text.append(b"..");
    put_digits(text, texts, back_of(digits));
    put_len(text, digits);
}

/// Returns whether a byte is a lower-case hexadecimal digit.
fn is_digit(byte: u8) -> bool
    ensures { result ≡ bytes.is_digit byte }
{
    (b'0' <= byte && byte <= b'9') || (b'a' <= byte && byte <= b'f')
}

/// Returns the index of the first byte that isn't such a digit.
fn first_other(word: &[u8]) -> Option<usize>
    ensures { result ≡ position (λ byte. not (bytes.is_digit byte)) word.now }
{
    word.iter().position(|byte| !is_digit(*byte))
}

/// Returns whether a word consists of the digits of bytes.
fn are_digits(word: &[u8]) -> bool
    ensures { result ≡ bytes.are_digits word.now }
{
    word.len() % 2 == 0 && first_other(word).is_none()
}

/// Returns whether the bytes of these digits are abbreviated.
fn is_long(digits: &[u8]) -> bool
    ensures { result ≡ bytes.is_long digits.now }
{
    WHOLE < digits.len()
}

/// Appends a word: if it is the digits of bytes, their text; any other word as it is.
fn put_word<const N: usize>(text: &mut Buffer<N>, texts: bool, word: &[u8])
    requires { length text.old + (length word.now + 2) ≤ N }
    ensures items { text.new ≡ text.old ++ bytes.word_text texts word.now }
    ensures len { length text.new ≤ length text.old + (length word.now + 2) }
{
    if !are_digits(word) {
        text.append(word);
    } else if is_long(word) {
        put_cut(text, texts, word);
    } else {
        put_digits(text, texts, word);
    }
}

/// Returns whether a text begins with a word.
pub(crate) fn begins_with(text: &[u8], word: &[u8]) -> bool
    ensures { result ≡ bytes.begins_with text.now word.now }
{
    text.len() >= word.len() && &text[..word.len()] == word
}

/// Returns the index of the first space.
fn first_space(text: &[u8]) -> Option<usize>
    ensures is { result ≡ position (λ byte. byte == 32) text.now }
    ensures most { IfSome result (λ at. at < length text.now) }
{
    text.iter().position(|byte| *byte == b' ')
}

/// Returns how many bytes come before the first space.
fn word_len(text: &[u8]) -> usize
    ensures is { result ≡ bytes.word_len text.now }
    ensures most { result ≤ length text.now }
{
    match first_space(text) {
        Some(at) => at,
        None => text.len(),
    }
}

/// Returns the text after the first word and its space.
fn after_word(text: &[u8]) -> &[u8]
    ensures is { result.now ≡ bytes.after_word text.now }
    ensures most { length result.now ≤ length text.now }
{
    let at = word_len(text);
    if at < text.len() {
        &text[at + 1..]
    } else {
        &text[at..]
    }
}

/// Returns a reply from its bytes on: the part after `packet`, or after `from` and the sender. For any other reply it
/// is empty.
fn bytes_on(reply: &[u8]) -> &[u8]
    ensures is { result.now ≡ bytes.bytes_on reply.now }
    ensures most { length result.now ≤ length reply.now }
{
    if begins_with(reply, b"packet ") {
        after_word(reply)
    } else if begins_with(reply, b"from ") {
        after_word(after_word(after_word(reply)))
    } else {
        &[]
    }
}

/// Returns the word that contains a reply's bytes.
fn bytes_word(reply: &[u8]) -> &[u8]
    ensures { result.now ≡ bytes.bytes_word reply.now }
{
    let left = bytes_on(reply);
    &left[..word_len(left)]
}

/// Appends a reply, with its bytes in this form.
fn put_seen<const N: usize>(text: &mut Buffer<N>, texts: bool, reply: &[u8])
    requires { length text.old + (length reply.now + 2) ≤ N }
    ensures items { text.new ≡ text.old ++ bytes.shown texts reply.now }
    ensures len { length text.new ≤ length text.old + (length reply.now + 2) }
{
    let left = bytes_on(reply);
    let (word, rest) = left.split_at(word_len(left));
    text.append(&reply[..reply.len() - left.len()]);
    put_word(text, texts, word);
    text.append(rest);
}

/// Appends a reply, with its bytes in this form. There must be space for two bytes more than the reply has.
pub(crate) fn put_reply<const N: usize>(text: &mut Buffer<N>, form: ByteForm, reply: &[u8])
    requires { length text.old + (length reply.now + 2) ≤ N }
    ensures items { text.new ≡ text.old ++ bytes.seen form reply.now }
    ensures len { length text.new ≤ length text.old + (length reply.now + 2) }
{
    match form {
        ByteForm::Digits => text.append(reply),
        ByteForm::Cut => put_seen(text, false, reply),
        ByteForm::Texts => put_seen(text, true, reply),
    }
}

/// Returns how many leading bytes are the same.
fn alike(first: &[u8], second: &[u8]) -> usize
    ensures is { result ≡ bytes.alike first.now second.now }
    ensures most { result ≤ length first.now }
{
    let len = first.len().min(second.len());
    let mut at = 0;
    while at < len {
        if first[at] != second[at] {
            return at;
        }
        at += 1;
    }
    at
}

/// Returns whether one of two lists is abbreviated, and both are longer than `same` bytes.
fn are_apart(first: &[u8], second: &[u8], same: usize) -> bool
    ensures { result
        ≡ ((bytes.is_long first.now || bytes.is_long second.now)
        && nat_lt same (min (length first.now) (length second.now))) }
{
    let len = first.len().min(second.len());
    (is_long(first) || is_long(second)) && same < len
}

/// Appends the number of the byte after this many digits, and ` on`.
fn put_byte_on<const N: usize>(text: &mut Buffer<N>, same: usize)
    requires { length text.old + 23 ≤ N }
    ensures items { text.new ≡ text.old ++ (decimal (same / 2) ++ codes " on") }
    ensures len { length text.new ≤ length text.old + 23 }
{
    put_long(text, (same / 2) as u64);
    text.append(b" on");
}

/// Appends that bytes differ after this many equal digits.
fn put_from<const N: usize>(text: &mut Buffer<N>, same: usize)
    requires { length text.old + 48 ≤ N }
    ensures items { text.new ≡ text.old
        ++ (codes ", which differ from byte " ++ decimal (same / 2) ++ codes " on") }
    ensures len { length text.new ≤ length text.old + 48 }
{
    text.append(b", which differ from byte ");
    put_byte_on(text, same);
}

/// Appends where bytes first differ, one list of which is abbreviated.
fn put_first_apart<const N: usize>(text: &mut Buffer<N>, first: &[u8], second: &[u8])
    requires { length text.old + 48 ≤ N }
    ensures items { text.new ≡ text.old ++ bytes.apart_text first.now second.now }
    ensures len { length text.new ≤ length text.old + 48 }
{
    let same = alike(first, second);
    if are_apart(first, second, same) {
        put_from(text, same);
    }
}

/// Appends the offset at which the bytes of two replies first differ, if one of the two is abbreviated.
fn put_replies_apart<const N: usize>(text: &mut Buffer<N>, wanted: &[u8], reply: &[u8])
    requires { length text.old + 48 ≤ N }
    ensures items { text.new ≡ text.old
        ++ bytes.apart_text (bytes.bytes_word wanted.now) (bytes.bytes_word reply.now) }
    ensures len { length text.new ≤ length text.old + 48 }
{
    let first = bytes_word(wanted);
    let second = bytes_word(reply);
    put_first_apart(text, first, second);
}

/// Appends the offset at which the bytes of two replies first differ, if one of the two is abbreviated. There must be
/// space for 48 bytes.
pub(crate) fn put_apart<const N: usize>(
    text: &mut Buffer<N>,
    form: ByteForm,
    wanted: &[u8],
    reply: &[u8],
)
    requires { length text.old + 48 ≤ N }
    ensures items { text.new ≡ text.old ++ bytes.difference form wanted.now reply.now }
    ensures len { length text.new ≤ length text.old + 48 }
{
    match form {
        ByteForm::Digits => {}
        ByteForm::Cut => put_replies_apart(text, wanted, reply),
        ByteForm::Texts => put_replies_apart(text, wanted, reply),
    }
}
