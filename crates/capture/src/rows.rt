//! Bytes as people read them: in hex, with the readable ones beside.
//!
//! Left out: where they are printed.
ghost use Rattle.std.specs.Prelude.{◌≡◌, ◌%◌, map, IfOk};
ghost use Rattle.std.specs.List.{flat_map};
ghost use Rattle.capture.specs.Rows.{digit_of, hex_of, readable_of, row_of};

use std::alloc::{AllocError, Global};

/// How many bytes a full row shows.
pub const ROW: usize = 16;

/// The width of the hex column of a full row.
const HEX_WIDTH: usize = 48;

// By hand: `char::from_digit` answers an `Option` of a small letter, and the kit's crate for hex writes the pairs with
// nothing between them.
/// The hex digit of a number below 16; of any other, that of its remainder.
fn digit(n: u8) -> u8
    ensures { result ≡ digit_of (n % 16) }
{
    let n = n % 16;
    if n < 10 { b'0' + n } else { b'A' + (n - 10) }
}

/// A byte in hex, and a space.
pub fn hex(byte: u8) -> [u8; 3]
    ensures { result ≡ hex_of byte }
{
    [digit(byte / 16), digit(byte), b' ']
}

// By hand: the library has no word for it.
/// A byte that is visible ASCII or a space; a full stop for any other.
pub fn readable(byte: u8) -> u8
    ensures { result ≡ readable_of byte }
{
    match byte {
        b' '..=b'~' => byte,
        _ => b'.',
    }
}

/// Each byte in hex.
fn triples(heap: Global, bytes: &[u8]) -> Result<Vec<[u8; 3]>, AllocError>
    ensures { IfOk result (λ v. v.items ≡ map hex_of bytes.now) }
{
    bytes.iter().copied().map(hex).collect(heap)
}

/// The bytes in hex, one after the other.
// The three characters of each byte laid flat: a `flat_map` over them takes nearly twice the time.
fn hexed(heap: Global, bytes: &[u8]) -> Result<Vec<u8>, AllocError>
    ensures { IfOk result (λ v. v.items ≡ flat_map hex_of bytes.now) }
{
    let mut line = Vec::new(heap);
    line.extend_from_slice(triples(heap, bytes)?.as_flattened())?;
    Ok(line)
}

/// A row of bytes: in hex, filled up to the width of a full row, and readable between two bars.
pub fn row(heap: Global, bytes: &[u8]) -> Result<Vec<u8>, AllocError>
    ensures { IfOk result (λ v. v.items ≡ row_of bytes.now) }
{
    let mut line = hexed(heap, bytes)?;
    let width = line.len().max(HEX_WIDTH);
    line.resize(width, b' ')?;
    line.push(b'|')?;
    line.extend(bytes.iter().copied().map(readable))?;
    line.push(b'|')?;
    Ok(line)
}
