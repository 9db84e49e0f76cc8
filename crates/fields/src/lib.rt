// The answers as C is handed them, a struct for each kind: number 0 for an acceptance, and values of 0 for a refusal.
// A refusal's place is taken before its number: the other way round the compiler makes one jump of both, and the loops before it pay for its registers.
#![tactic(auto)]

ghost use Rattle.std.specs.Prelude.{◌≡◌};
ghost use Rattle.answers.specs.Told.{told, told_as};
ghost use Rattle.grid.specs.Counts.{counts};
ghost use Rattle.slopes.specs.Sloping.{slopes_of};
ghost use Rattle.point_records.specs.Read.{header_of};
ghost use Rattle.fields.specs.Fields.{cells_fields, height_fields, slope_fields, count_fields, header_fields, above_fields, storage_fields, stage_fields};

use answers::Refusal;
use grid::Cells;
use point_records::Header;
use slopes::Slopes;

#[repr(C)]
#[derive(Drop)]
pub struct CellsAnswer {
    pub number: usize,
    pub place: usize,
    pub m: usize,
    pub n: usize,
}

#[repr(C)]
#[derive(Drop)]
pub struct HeightAnswer {
    pub number: usize,
    pub place: usize,
    pub height: i64,
}

#[repr(C)]
#[derive(Drop)]
pub struct SlopeAnswer {
    pub number: usize,
    pub place: usize,
    pub along_x: i64,
    pub along_y: i64,
}

#[repr(C)]
#[derive(Drop)]
pub struct CountAnswer {
    pub number: usize,
    pub place: usize,
    pub count: usize,
}

#[repr(C)]
#[derive(Drop)]
pub struct HeaderAnswer {
    pub number: usize,
    pub place: usize,
    pub m0: usize,
    pub n0: usize,
    pub h: usize,
    pub points: usize,
}

#[repr(C)]
#[derive(Drop)]
pub struct AboveAnswer {
    pub number: usize,
    pub place: usize,
    pub above: usize,
}

#[repr(C)]
#[derive(Drop)]
pub struct StorageAnswer {
    pub number: usize,
    pub place: usize,
    pub litres: u64,
}

#[repr(C)]
#[derive(Drop)]
pub struct StageAnswer {
    pub number: usize,
    pub place: usize,
    pub stage: i64,
}

impl From<Result<Cells, Refusal>> for CellsAnswer {
    ghost from_gives = { λ answer fields. fields ≡ cells_fields (told_as counts answer) };

    fn from(answer: Result<Cells, Refusal>) -> CellsAnswer {
        match answer {
            Ok(cells) => CellsAnswer {
                number: 0,
                place: 0,
                m: cells.m,
                n: cells.n,
            },
            Err(r) => CellsAnswer {
                place: r.place(),
                number: r.number(),
                m: 0,
                n: 0,
            },
        }
    }
}

impl From<Result<i64, Refusal>> for HeightAnswer {
    ghost from_gives = { λ answer fields. fields ≡ height_fields (told answer) };

    fn from(answer: Result<i64, Refusal>) -> HeightAnswer {
        match answer {
            Ok(height) => HeightAnswer {
                number: 0,
                place: 0,
                height,
            },
            Err(r) => HeightAnswer {
                place: r.place(),
                number: r.number(),
                height: 0,
            },
        }
    }
}

impl From<Result<Slopes, Refusal>> for SlopeAnswer {
    ghost from_gives = { λ answer fields. fields ≡ slope_fields (told_as slopes_of answer) };

    fn from(answer: Result<Slopes, Refusal>) -> SlopeAnswer {
        match answer {
            Ok(s) => SlopeAnswer {
                number: 0,
                place: 0,
                along_x: s.along_x,
                along_y: s.along_y,
            },
            Err(r) => SlopeAnswer {
                place: r.place(),
                number: r.number(),
                along_x: 0,
                along_y: 0,
            },
        }
    }
}

impl From<Result<usize, Refusal>> for CountAnswer {
    ghost from_gives = { λ answer fields. fields ≡ count_fields (told answer) };

    fn from(answer: Result<usize, Refusal>) -> CountAnswer {
        match answer {
            Ok(count) => CountAnswer {
                number: 0,
                place: 0,
                count,
            },
            Err(r) => CountAnswer {
                place: r.place(),
                number: r.number(),
                count: 0,
            },
        }
    }
}

impl From<Result<Header, Refusal>> for HeaderAnswer {
    ghost from_gives = { λ answer fields. fields ≡ header_fields (told_as header_of answer) };

    fn from(answer: Result<Header, Refusal>) -> HeaderAnswer {
        match answer {
            Ok(a) => HeaderAnswer {
                number: 0,
                place: 0,
                m0: a.shape.m0,
                n0: a.shape.n0,
                h: a.shape.h,
                points: a.points,
            },
            Err(r) => HeaderAnswer {
                place: r.place(),
                number: r.number(),
                m0: 0,
                n0: 0,
                h: 0,
                points: 0,
            },
        }
    }
}

impl From<Result<bool, Refusal>> for AboveAnswer {
    ghost from_gives = { λ answer fields. fields ≡ above_fields (told answer) };

    fn from(answer: Result<bool, Refusal>) -> AboveAnswer {
        match answer {
            Ok(above) => AboveAnswer {
                number: 0,
                place: 0,
                above: usize::from(above),
            },
            Err(r) => AboveAnswer {
                place: r.place(),
                number: r.number(),
                above: 0,
            },
        }
    }
}

impl From<Result<u64, Refusal>> for StorageAnswer {
    ghost from_gives = { λ answer fields. fields ≡ storage_fields (told answer) };

    fn from(answer: Result<u64, Refusal>) -> StorageAnswer {
        match answer {
            Ok(litres) => StorageAnswer {
                number: 0,
                place: 0,
                litres,
            },
            Err(r) => StorageAnswer {
                place: r.place(),
                number: r.number(),
                litres: 0,
            },
        }
    }
}

impl From<Result<i64, Refusal>> for StageAnswer {
    ghost from_gives = { λ answer fields. fields ≡ stage_fields (told answer) };

    fn from(answer: Result<i64, Refusal>) -> StageAnswer {
        match answer {
            Ok(stage) => StageAnswer {
                number: 0,
                place: 0,
                stage,
            },
            Err(r) => StageAnswer {
                place: r.place(),
                number: r.number(),
                stage: 0,
            },
        }
    }
}
