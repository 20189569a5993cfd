//! The price of an edge.
ghost use Rattle.std.specs.Prelude.{◌≡◌};
ghost use Rattle.weave_data.specs.Pairs.{at_key};
ghost use Rattle.program_defs.specs.Prices.{price_in};

use graph_ops::Edge;
use weave_data::Name;
use weave_text::{Numeral, number_up_to};

/// The greatest price of an edge.
pub const MOST_PRICE: u64 = 1_000_000;

/// The price of an edge: the number from 1 to 1,000,000 without leading zeros that its tag at the key says. `None` if
/// there is no such tag.
pub fn price_of(edge: &Edge, key: Name) -> Option<u32>
    ensures { result ≡ price_in (at_key key edge.now.tags) }
{
    let text = edge.tags.get(key)?;
    match number_up_to(MOST_PRICE, text.bytes()) {
        Numeral::Number(value) => { if 1 <= value { Some(value as u32) } else { None } }
        Numeral::TooLarge => None,
        Numeral::NoNumber => None,
    }
}
