// What the bars of a piece are walked from: ticks per quarter, the end of the piece, and its first track.
#![tactic(auto)]

ghost use Rattle.rules.specs.Piece.{piece};
ghost use Rattle.laws.specs.Admitted.{Admitted};
ghost use Rattle.bar_source.specs.Source.{IsBarSource};

// Ticks per quarter, the end tick, and where the first track stands.
#[derive(Clone, Copy)]
pub struct BarSource {
    pub p: u64,
    pub end: u64,
    pub from: usize,
    pub to: usize,
}

// What an admitted piece's bars are walked from.
pub fn bar_source(sizes: &[u32], deltas: &[u32], words: &[u32]) -> BarSource
    requires { Admitted (piece sizes.now deltas.now words.now) }
    ensures { IsBarSource (piece sizes.now deltas.now words.now) result }
{
    let track = tracks::first_track(sizes);
    BarSource {
        p: tracks::ticks_per_quarter(sizes),
        end: ends::end_of_piece(sizes, deltas, words),
        from: track.from,
        to: track.to,
    }
}
