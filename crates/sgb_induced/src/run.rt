//! Runs: insertions from each image of one vertex to each of another.
ghost use Rattle.std.specs.Prelude.{◌≡◌, FitsSigned};
ghost use Rattle.std.specs.Int.{w64};
ghost use Rattle.sgb_induced.specs.Private.Run.{key_of, lowered_run};

// Insertions of this length from each image of one vertex to each of another, by the vertices in whose place the images
// stand.
#[derive(Clone, Copy, Debug, PartialEq, Eq)]
pub(crate) struct Run {
    pub(crate) from: u32,
    pub(crate) to: u32,
    pub(crate) len: i64,
}

impl Run {
    // The length of each insertion.
    #[inline]
    pub(crate) fn length(self) -> i64
        ensures value { result ≡ self.len }
        ensures fits { FitsSigned w64 result }
    {
        self.len
    }
}

// A run with the smaller length of the two.
#[inline]
pub(crate) fn lowered_run(kept: Run, run: Run) -> Run
    ensures { result ≡ lowered_run kept run }
{
    Run {
        from: kept.from,
        to: kept.to,
        len: kept.len.min(run.len),
    }
}

// The ends of a run; without a direction the smaller is named first.
#[inline]
pub(crate) fn key_of(run: Run, directed: bool) -> (u32, u32)
    ensures { result ≡ key_of directed run }
{
    if directed {
        (run.from, run.to)
    } else {
        (run.from.min(run.to), run.from.max(run.to))
    }
}
