ghost use Rattle.std.specs.Prelude.{◌≡◌};
ghost use Rattle.brace_num.specs.Names.{is_digit, is_letter};
ghost use Rattle.brace_tok.specs.Bytes.{is_blank};
ghost use Rattle.brace_tok.specs.inner.Steps.{is_of, IsRun, IsClosed};

/// A kind of bytes that stand in a row.
#[derive(Debug, Clone, Copy, PartialEq, Eq, Drop)]
pub(crate) enum Run {
    /// The bytes of a word.
    Letters,
    /// The digits of a literal.
    Digits,
    /// The bytes of one line.
    Line,
}

pub(crate) fn is_blank(byte: u8) -> bool
    ensures { result ≡ is_blank byte }
{
    byte == b' ' || byte == b'\t' || byte == b'\r' || byte == b'\n'
}

pub(crate) fn is_digit(byte: u8) -> bool
    ensures { result ≡ is_digit byte }
{
    byte >= b'0' && byte <= b'9'
}

pub(crate) fn is_letter(byte: u8) -> bool
    ensures { result ≡ is_letter byte }
{
    (byte >= b'a' && byte <= b'z') || (byte >= b'A' && byte <= b'Z') || byte == b'_'
}

fn is_of(run: Run, byte: u8) -> bool
    ensures { result ≡ is_of run byte }
{
    match run {
        Run::Letters => is_letter(byte) || is_digit(byte),
        Run::Digits => is_digit(byte),
        Run::Line => !(byte == b'\n'),
    }
}

/// How many bytes of the kind the text begins with.
pub(crate) fn run_length(run: Run, text: &[u8]) -> usize
    ensures { IsRun (is_of run) text.now result }
{
    for (length, byte) in text.iter().enumerate() {
        if !is_of(run, *byte) {
            return length;
        }
    }
    text.len()
}

/// Where the first `*/` of the text stands.
pub(crate) fn close_at(text: &[u8]) -> Option<usize>
    ensures { IsClosed text.now result }
{
    for next in 1..text.len() {
        if text[next - 1] == b'*' && text[next] == b'/' {
            return Some(next - 1);
        }
    }
    None
}
