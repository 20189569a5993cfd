//! Node programs.
ghost use Rattle.std.specs.Prelude.{◌≡◌};
ghost use Rattle.load_maker.specs.Generated.{drawn_program};
ghost use Rattle.load_maker.specs.Words.{words_from};

use crate::draws::draw;
use crate::names::draw_vertex;
use program_defs::Program;
use rand_pcg::Lcg64Xsh32;

/// A program without a filter.
pub fn draw_program(words: &mut Lcg64Xsh32) -> Program
    ensures { (result, words_from words.new) ≡ drawn_program (words_from words.old) }
{
    let form = draw(words, 4);
    let v = draw_vertex(words);
    match form {
        0 => Program::Show { v },
        1 => Program::Reach {
            from: v,
            to: draw_vertex(words),
            pass: None,
        },
        2 => Program::Around {
            from: v,
            bound: draw(words, 5),
            pass: None,
        },
        _ => Program::Path {
            from: v,
            to: draw_vertex(words),
            bound: draw(words, 5),
            pass: None,
        },
    }
}
