//! The fields of an account.
ghost use Rattle.std.specs.Prelude.{◌≡◌, length};
ghost use Rattle.account.specs.Fields.{all_visible, good, judged, laid, field_of, account_of};

use wire::Refusal;

/// The fields that an account goes by. Each is padded with spaces on the right.
#[derive(Clone, Copy)]
pub struct Account {
    /// The user name.
    pub user: [u8; 5],
    /// The computer ID.
    pub computer: [u8; 8],
    /// The application protocol.
    pub protocol: [u8; 8],
}

impl Account {
    /// An account of these fields, which it pads. Refuses by `BadAccountField` where one is empty, wider than
    /// its width, or holds a byte outside `!` to `~`.
    pub fn new(user: &[u8], computer: &[u8], protocol: &[u8]) -> Result<Account, Refusal>
        ensures { result ≡ account_of user.now computer.now protocol.now }
    {
        Ok(Account {
            user: padded(user)?,
            computer: padded(computer)?,
            protocol: padded(protocol)?,
        })
    }
}

/// A text that is padded with spaces on the right, up to the width of its field. Refuses by `BadAccountField` a
/// text that may not stand there.
pub fn padded<const WIDTH: usize>(text: &[u8]) -> Result<[u8; WIDTH], Refusal>
    ensures { result ≡ field_of WIDTH text.now }
{
    let mut field = [b' '; WIDTH];
    lay(&mut field, text)?;
    Ok(field)
}

/// Lays a text at the front of a field. Refuses by `BadAccountField` a text that may not stand there: an empty
/// one, a wider one, and one with a byte outside `!` to `~`.
pub fn lay(field: &mut [u8], text: &[u8]) -> Result<(), Refusal>
    ensures answer { result ≡ judged (length field.old) text.now }
    ensures after { field.new ≡ laid field.old text.now }
{
    if !is_good(text, field.len()) {
        return Err(Refusal::BadAccountField);
    }
    wire::lay(field, 0, text);
    Ok(())
}

/// Whether a text may stand in a field of this width.
fn is_good(text: &[u8], width: usize) -> bool
    ensures { result ≡ good width text.now }
{
    !text.is_empty() && text.len() <= width && all_visible(text)
}

/// Whether every byte is from `!` to `~`.
fn all_visible(text: &[u8]) -> bool
    ensures { result ≡ all_visible text.now }
{
    text.iter().all(u8::is_ascii_graphic)
}
