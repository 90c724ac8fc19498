// What an integer comes to.
ghost use Rattle.std.specs.Prelude.{◌≡◌, ◌≤◌, ◌<◌, IfSome};
ghost use Rattle.st80_syntax.specs.Numbers as spec;

/// The largest amount of a large integer: 2 to the 127.
pub const LARGEST: u128 = 0x8000_0000_0000_0000_0000_0000_0000_0000;

/// What a digit or a capital letter stands for; 36 is no digit of any radix.
#[tactic(auto, unfolding(crate::specs::Numbers::figure_of, crate::specs::Bytes::is_digit, crate::specs::Bytes::is_capital))]
fn figure_of(b: u8) -> u8
    ensures { result ≡ spec.figure_of b }
{
    if 48 <= b && b <= 57 {
        b - 48
    } else if 65 <= b && b <= 90 {
        b - 55
    } else {
        36
    }
}

/// One more figure behind a number.
#[tactic(auto, unfolding(crate::specs::Numbers::with_figure))]
fn with_figure(radix: u8, n: u128, b: u8) -> Option<u128>
    ensures { result ≡ spec.with_figure radix n b }
{
    let figure = figure_of(b);
    if radix <= figure {
        return None;
    }
    let product = n.checked_mul(u128::from(radix))?;
    let sum = product.checked_add(u128::from(figure))?;
    if sum <= LARGEST { Some(sum) } else { None }
}

/// What figures come to in a radix.
fn figures_in(radix: u8, figures: &[u8]) -> Option<u128>
    ensures { result ≡ spec.figures_behind radix 0 figures.now }
{
    let mut n = 0;
    'each: for b in figures {
        match with_figure(radix, n, *b) {
            Some(next) => n = next,
            None => return None,
        }
    }
    Some(n)
}

/// What an integer comes to. None where its radix isn't from 2 to 36, a digit isn't below the radix, or it is above 2 to the 127.
pub fn integer_in(spelling: &[u8]) -> Option<u128> {
    let Some(mark) = spelling.iter().position(|b| *b == b'r') else {
        return figures_in(10, spelling);
    };
    let radix = figures_in(10, spelling.get(..mark)?)?;
    match u8::try_from(radix) {
        Ok(radix) if 2 <= radix && radix <= 36 => {
            figures_in(radix, spelling.get(mark.saturating_add(1)..)?)
        }
        _ => None,
    }
}
