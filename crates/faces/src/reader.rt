// The reader's stages, and what they ask of a face.
ghost use Rattle.std.specs.Prelude.{◌≡◌, true, false};
ghost use Rattle.faces.specs.ReaderFaces.{stage_row, reader_width, reader_bare, reader_fits};

use crate::{PublicParts, ReaderFace, Stage, StageRow};
use payloads::NUMBER_LIMIT;

// The table of stages.
pub fn stage_row(stage: Stage) -> StageRow
    ensures { result ≡ stage_row stage }
{
    let closed = StageRow::default();
    match stage {
        Stage::Idle => StageRow {
            idle: true,
            ..closed
        },
        Stage::Step0Sent => StageRow {
            asked: true,
            ..closed
        },
        Stage::Step1Sent => StageRow {
            proving: true,
            ..closed
        },
        Stage::Open => StageRow {
            opened: true,
            ..closed
        },
        Stage::Closed => closed,
    }
}

// ---- the stored state

impl PublicParts for ReaderFace {
    ghost fits = { reader_fits };

    ghost bare = { reader_bare };

    ghost width = { λ f. f.width };

    fn fits(self) -> bool {
        let row = stage_row(self.stage);
        let want = width_wanted(row, self.options);
        let zeros = (self.method == 0)
            & (self.options == 0)
            & (self.keyid == 0)
            & (self.number == 0);
        (self.options < 4)
            & (self.width == want)
            & (self.method < 3)
            & (self.number < NUMBER_LIMIT)
            & !(row.proving & (self.method == 0))
            & (!self.bare() | zeros)
    }

    // Nothing but zeros.
    fn bare(self) -> bool {
        let row = stage_row(self.stage);
        !(row.asked | row.proving | row.opened)
    }

    fn width(self) -> u8 {
        self.width
    }
}

fn width_wanted(row: StageRow, options: u8) -> u8
    ensures { result ≡ reader_width row options }
{
    crate::width_where(row.proving | row.opened, options)
}
