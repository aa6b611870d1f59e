// Numbers and bytes that words write.
ghost use Rattle.std.specs.Prelude.{◌≡◌};
ghost use Rattle.device_text.specs.Words as Words;

use rules::controller::Controller;

// The number that a word writes in decimal, up to the largest.
pub fn decimal(w: &[u8]) -> Option<usize>
    ensures { result ≡ Words.decimal w.now }
{
    if w.is_empty() {
        return None;
    }
    let mut n = 0;
    for b in w {
        if !b.is_ascii_digit() {
            return None;
        }
        n = n * 10 + usize::from(*b - b'0');
        if Controller::LARGEST_NUMBER < n {
            return None;
        }
    }
    Some(n)
}

// The value of a digit in hexadecimal.
#[tactic(auto, unfolding(crate::specs::Words::digit))]
pub fn digit(b: u8) -> Option<u8>
    ensures { result ≡ Words.value b }
{
    match b {
        b'0'..=b'9' => Some(b - b'0'),
        b'A'..=b'F' => Some(b - b'A' + 10),
        b'a'..=b'f' => Some(b - b'a' + 10),
        _ => None,
    }
}

fn all_digits(w: &[u8]) -> bool
    ensures { result ≡ Words.all_digits w.now }
{
    w.iter().all(|b| digit(*b).is_some())
}

// A word is n bytes in hexadecimal; or 1 to n.
#[tactic(auto, unfolding(crate::specs::Words::is_bytes))]
pub fn is_bytes(n: usize, w: &[u8]) -> bool
    ensures { result ≡ Words.is_bytes n w.now }
{
    w.len() / 2 == n && w.len() % 2 == 0 && all_digits(w)
}

#[tactic(auto, unfolding(crate::specs::Words::up_to_bytes))]
pub fn up_to_bytes(n: usize, w: &[u8]) -> bool
    ensures { result ≡ Words.up_to_bytes n w.now }
{
    w.len() % 2 == 0 && 2 <= w.len() && w.len() / 2 <= n && all_digits(w)
}
