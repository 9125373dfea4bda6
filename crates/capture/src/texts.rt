//! Bytes as text.
use std::fmt;

/// A text field: in quotes, without the spaces that pad it on the right; what is no visible ASCII as `\xNN`.
#[derive(Clone, Copy)]
pub struct Text<'a>(pub &'a [u8]);

// Written out: what it escapes is its own.
impl fmt::Display for Text<'_> {
    fn fmt<W: fmt::Write>(&self, f: &mut fmt::Formatter<W>) -> fmt::Result {
        f.write_str("\"")?;
        for byte in unpadded(self.0).iter().copied() {
            match byte {
                b'"' => f.write_str("\\\"")?,
                b'\\' => f.write_str("\\\\")?,
                b' '..=b'~' => f.write_char(char::from(byte))?,
                _ => write!(f, "\\x{byte:02x}")?,
            }
        }
        f.write_str("\"")
    }
}

// The bytes without the spaces at their end. The library's `trim_ascii_end` would take tabs and line ends away too.
fn unpadded(bytes: &[u8]) -> &[u8] {
    match bytes.iter().rposition(|byte| *byte != b' ') {
        Some(last) => &bytes[..=last],
        None => &[],
    }
}
