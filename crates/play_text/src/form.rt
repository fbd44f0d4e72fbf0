//! The output formats of a script.
ghost use Rattle.std.specs.Prelude.{◌≡◌};
ghost use Rattle.play_text.specs.Forms as forms;

use crate::bytes::ByteForm;

/// The output format of a script.
#[derive(Clone, Copy)]
pub enum Form {
    /// Each line with its number and its output. Long data are abbreviated. Once the script has used a text, bytes that
    /// a text can represent are printed as a text.
    Plain,
    /// Only the output, with all digits, without the lines and the notes below them.
    Quiet,
    /// As `Plain`: replies are green; errors, faults and differences red; and drops yellow.
    Coloured,
    /// As `Quiet`, in the colours of `Coloured`.
    QuietColoured,
    /// Each line as a JSON object on a line of its own.
    Json,
}

impl Form {
    /// Returns whether only the output is printed.
    pub fn is_quiet(self) -> bool
        ensures { result ≡ forms.is_quiet self }
    {
        matches!(self, Form::Quiet | Form::QuietColoured)
    }

    /// Returns whether there are colours.
    pub(crate) fn is_coloured(self) -> bool
        ensures { result ≡ forms.is_coloured self }
    {
        matches!(self, Form::Coloured | Form::QuietColoured)
    }

    /// Returns how the bytes of replies are printed, given whether the script has used texts. The quiet formats and
    /// JSON, which programs compare, print all digits.
    pub(crate) fn byte_form(self, texts: bool) -> ByteForm
        ensures { result ≡ forms.byte_form self texts }
    {
        match self {
            Form::Plain | Form::Coloured if texts => ByteForm::Texts,
            Form::Plain | Form::Coloured => ByteForm::Cut,
            Form::Quiet | Form::QuietColoured | Form::Json => ByteForm::Digits,
        }
    }

    /// Returns whether the format is for programs.
    pub(crate) fn is_json(self) -> bool
        ensures { result ≡ forms.is_json self }
    {
        matches!(self, Form::Json)
    }
}
