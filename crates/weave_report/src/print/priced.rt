//! The words of an answer to `price`.
ghost use Rattle.std.specs.Prelude.{◌≡◌, ◌++◌, map, OnOk, codes};
ghost use Rattle.std.specs.List.{AllByRecursion};
ghost use Rattle.weave_text.specs.Lines.{spaced_words};
ghost use Rattle.weave_report.specs.ReportText.{bound_text, priced_words, walk_words};
ghost use Rattle.weave_report.specs.TextOf.{IsTypedBound, IsTypedPriced, IsTypedWalk};

use crate::print::words::print_names;
use itoa::Buffer;
use program_defs::Bound;
use std::alloc::AllocError;
use weave_data::{Items, Name};
use weave_text::Text;

/// The words of an answer to `price`, with a space before each.
pub fn print_priced(
    text: &mut Text,
    walk: &Option<Items<Name>>,
    total: u128,
    bounds: &[Bound],
) -> Result<(), AllocError>
    ensures text { OnOk result (text.new ≡ text.old ++ spaced_words (priced_words walk.now total bounds.now)) }
    ensures typed { OnOk result (IsTypedPriced walk.now total bounds.now) }
{
    text.word(b"price")?;
    print_walk(text, walk, total)?;
    text.word(b";")?;
    print_bounds(text, bounds)
}

fn print_walk(text: &mut Text, walk: &Option<Items<Name>>, total: u128) -> Result<(), AllocError>
    ensures text { OnOk result (text.new ≡ text.old ++ spaced_words (walk_words walk.now total)) }
    ensures typed { OnOk result (IsTypedWalk walk.now) }
{
    match walk {
        None => text.word(b"none"),
        Some(vertices) => {
            text.word(Buffer::new().format(total).as_bytes())?;
            print_names(text, vertices.as_slice())
        }
    }
}

fn print_bounds(text: &mut Text, bounds: &[Bound]) -> Result<(), AllocError>
    ensures text { OnOk result (text.new ≡ text.old ++ spaced_words (map bound_text bounds.now)) }
    ensures typed { OnOk result (AllByRecursion IsTypedBound bounds.now) }
{
    for bound in bounds {
        print_bound(text, bound)?;
    }
    Ok(())
}

fn print_bound(text: &mut Text, bound: &Bound) -> Result<(), AllocError>
    ensures text { OnOk result (text.new ≡ text.old ++ (codes " " ++ bound_text bound.now)) }
    ensures typed { OnOk result (IsTypedBound bound.now) }
{
    text.word(bound.vertex.bytes())?;
    text.push(b"=")?;
    text.push(Buffer::new().format(bound.price).as_bytes())
}
