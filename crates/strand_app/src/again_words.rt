ghost use Rattle.std.specs.Prelude.{◌*◌, ◌≤◌, length};
ghost use Rattle.strand_app.specs.declared.again_words.TheConstants.{MOST_GENERATIONS};

/// The most generations of a command.
pub const MOST_GENERATIONS: usize = 16;

/// A machine file and an image, and two words for each generation: a schedule and a stop.
#[derive(Clone, Copy)]
pub struct AgainWords<'a> {
    pub machine: &'a str,
    pub image: &'a str,
    pub pairs: &'a [String],
    ghost few: { length pairs.now ≤ 2 * MOST_GENERATIONS },
}
