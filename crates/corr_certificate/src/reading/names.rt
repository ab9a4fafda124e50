//! Words of a certificate: what follows a prefix, numbers, and signals by their names.
ghost use Rattle.std.specs.Prelude.{◌≡◌, ◌<◌, drop, slice_index, IfSome, MatchOption, None, Some};
ghost use Rattle.circ_model.specs.Meaning.{places_of};
ghost use Rattle.corr_certificate.specs.Names.{stripped, number_of, signal_of, named};

use circ_model::Signal;
use plain_text::read_number;
use product_machine::Product;

/// What follows a prefix of a text.
pub fn strip<'a>(prefix: &[u8], text: &'a [u8]) -> Option<&'a [u8]>
    ensures { MatchOption result (stripped prefix.now text.entry.now ≡ None) (λ r. stripped prefix.now text.entry.now ≡ Some r.now) }
{
    let (front, rest) = text.split_at(prefix.len().min(text.len()));
    if front == prefix { Some(rest) } else { None }
}

/// The first byte of a text, or 0.
pub fn first_byte(text: &[u8]) -> u8
    ensures { result ≡ slice_index text.now 0 }
{
    if text.len() > 0 { text[0] } else { 0 }
}

/// A text without its first byte.
pub fn tail(text: &[u8]) -> &[u8]
    ensures { result.now ≡ drop 1 text.entry.now }
{
    if text.len() > 0 { &text[1..] } else { text }
}

/// The number that is all of a word, without leading zeros.
pub fn number_of(word: &[u8]) -> Option<u32>
    ensures { result ≡ number_of word.now }
{
    let (number, end) = read_number(word, 0)?;
    if end == word.len() as u64 && (first_byte(word) != b'0' || word.len() == 1) {
        Some(number)
    } else {
        None
    }
}

// The signal that a name tells, of whatever pair.
fn signal_of(name: &[u8]) -> Option<Signal>
    ensures { result ≡ signal_of name.now }
{
    if name == b"c".as_slice() {
        return Some(Signal::Const);
    }
    let number = number_of(tail(name))?;
    match first_byte(name) {
        b'i' => Some(Signal::Input(number)),
        b'l' => Some(Signal::Left(number)),
        b'r' => Some(Signal::Right(number)),
        _ => None,
    }
}

/// The place of the signal with this name.
pub fn named(product: &Product, name: &[u8]) -> Option<u32>
    ensures is { result ≡ named product.now name.now }
    ensures within { IfSome result (λ p. p < places_of product.now) }
{
    let _cells = product.cells();
    product.place(signal_of(name)?)
}
