// Answers as C sees them. The status is `ANSWERED` where there is an answer, `NONE` where there is none, and a refusal's number
// otherwise; what is not answered is zero, and so is a place that is not told.
#![tactic(auto)]

ghost use Rattle.std.specs.Prelude.{◌≡◌};
ghost use Rattle.c_answers.specs.Status.{status_of};

use slabs::Crossing;
use types::{Aabb2, Aabb3, Pixels, Refusal, RefusalAt, Vec2, Vec3};

// The statuses are numbers, each beside a value: C has no enum that carries one.
pub const ANSWERED: u32 = 0;

const NONE: u32 = 255;

// Zeros stand for what is not answered. Elsewhere a point or a box of zeros is a real one, so the types have no `Default`.
const NO_POINT: Vec2 = Vec2 { x: 0.0, y: 0.0 };

const NO_POINT3: Vec3 = Vec3 {
    x: 0.0,
    y: 0.0,
    z: 0.0,
};

const NO_BOX: Aabb2 = Aabb2 {
    min_x: 0.0,
    min_y: 0.0,
    max_x: 0.0,
    max_y: 0.0,
};

const NO_BOX3: Aabb3 = Aabb3 {
    min_x: 0.0,
    min_y: 0.0,
    min_z: 0.0,
    max_x: 0.0,
    max_y: 0.0,
    max_z: 0.0,
};

const NO_PIXELS: Pixels = Pixels {
    x0: 0,
    y0: 0,
    x1: 0,
    y1: 0,
};

// A struct for each type of value: no generic one may cross to C.

// A number.
#[repr(C)]
#[derive(Clone, Copy, Debug, PartialEq)]
pub struct FloatAnswer {
    pub status: u32,
    pub value: f32,
}

// A point.
#[repr(C)]
#[derive(Clone, Copy, Debug, PartialEq)]
pub struct PointAnswer {
    pub status: u32,
    pub value: Vec2,
}

// A point of space.
#[repr(C)]
#[derive(Clone, Copy, Debug, PartialEq)]
pub struct Point3Answer {
    pub status: u32,
    pub value: Vec3,
}

// An upright box.
#[repr(C)]
#[derive(Clone, Copy, Debug, PartialEq)]
pub struct BoxAnswer {
    pub status: u32,
    pub value: Aabb2,
}

// An upright box of space.
#[repr(C)]
#[derive(Clone, Copy, Debug, PartialEq)]
pub struct Box3Answer {
    pub status: u32,
    pub value: Aabb3,
}

// Yes or no.
#[repr(C)]
#[derive(Clone, Copy, Debug, PartialEq, Eq)]
pub struct BoolAnswer {
    pub status: u32,
    pub value: bool,
}

// The stretch of a line or a ray in a box, by the parameters t of its two ends: the points origin + t * direction.
#[repr(C)]
#[derive(Clone, Copy, Debug, PartialEq)]
pub struct IntervalAnswer {
    pub status: u32,
    // Where it begins.
    pub tmin: f32,
    // Where it ends.
    pub tmax: f32,
    // The edge by which the line comes in at tmin, or none.
    pub edge: u32,
}

// Columns from x0 up to and without x1, rows from y0 up to and without y1.
#[repr(C)]
#[derive(Clone, Copy, Debug, PartialEq, Eq)]
pub struct PixelsAnswer {
    pub status: u32,
    // The first column.
    pub x0: usize,
    // The first row.
    pub y0: usize,
    // The column after the last.
    pub x1: usize,
    // The row after the last.
    pub y1: usize,
}

// How many entries: those written, or the most that there can be.
#[repr(C)]
#[derive(Clone, Copy, Debug, PartialEq, Eq)]
pub struct CountAnswer {
    pub status: u32,
    pub count: usize,
    // The place of a refusal that tells one, and else 0.
    pub place: usize,
}

// The ink of a stroke: a length.
#[repr(C)]
#[derive(Clone, Copy, Debug, PartialEq)]
pub struct InkAnswer {
    pub status: u32,
    pub value: f32,
    // The place of a refusal that tells one, and else 0.
    pub place: usize,
}

// The status of an answer or a refusal.
pub fn status<T: Copy>(answer: Result<T, Refusal>) -> u32
    ensures { result ≡ status_of answer }
{
    match answer {
        Ok(_) => ANSWERED,
        Err(refusal) => refusal.number(),
    }
}

impl From<Result<f32, Refusal>> for FloatAnswer {
    ghost use Rattle.c_answers.specs.Answers.{float_answer_of};

    ghost from_gives = { λ answer told. told ≡ float_answer_of answer };

    fn from(answer: Result<f32, Refusal>) -> FloatAnswer {
        FloatAnswer {
            status: status(answer),
            value: answer.unwrap_or(0.0),
        }
    }
}

impl From<Result<Option<f32>, Refusal>> for FloatAnswer {
    ghost use Rattle.c_answers.specs.Answers.{optional_float_answer_of};

    ghost from_gives = { λ answer told. told ≡ optional_float_answer_of answer };

    fn from(answer: Result<Option<f32>, Refusal>) -> FloatAnswer {
        match answer.transpose() {
            Some(answer) => FloatAnswer::from(answer),
            None => FloatAnswer {
                status: NONE,
                value: 0.0,
            },
        }
    }
}

// By cases: with a lookup for each field LLVM tests the answer twice, and the nearest point of a box takes a quarter longer.
impl From<Result<Vec2, Refusal>> for PointAnswer {
    ghost use Rattle.c_answers.specs.Answers.{point_answer_of};

    ghost from_gives = { λ answer told. told ≡ point_answer_of answer };

    fn from(answer: Result<Vec2, Refusal>) -> PointAnswer {
        match answer {
            Ok(value) => PointAnswer {
                status: ANSWERED,
                value,
            },
            Err(refusal) => PointAnswer {
                status: refusal.number(),
                value: NO_POINT,
            },
        }
    }
}

impl From<Option<Vec2>> for PointAnswer {
    ghost use Rattle.c_answers.specs.Answers.{optional_point_answer_of};

    ghost from_gives = { λ answer told. told ≡ optional_point_answer_of answer };

    fn from(answer: Option<Vec2>) -> PointAnswer {
        match answer {
            Some(value) => PointAnswer {
                status: ANSWERED,
                value,
            },
            None => PointAnswer {
                status: NONE,
                value: NO_POINT,
            },
        }
    }
}

impl From<Result<Vec3, Refusal>> for Point3Answer {
    ghost use Rattle.c_answers.specs.Answers.{point3_answer_of};

    ghost from_gives = { λ answer told. told ≡ point3_answer_of answer };

    fn from(answer: Result<Vec3, Refusal>) -> Point3Answer {
        Point3Answer {
            status: status(answer),
            value: answer.unwrap_or(NO_POINT3),
        }
    }
}

impl From<Result<Aabb2, Refusal>> for BoxAnswer {
    ghost use Rattle.c_answers.specs.Answers.{box_answer_of};

    ghost from_gives = { λ answer told. told ≡ box_answer_of answer };

    fn from(answer: Result<Aabb2, Refusal>) -> BoxAnswer {
        BoxAnswer {
            status: status(answer),
            value: answer.unwrap_or(NO_BOX),
        }
    }
}

impl From<Result<Aabb3, Refusal>> for Box3Answer {
    ghost use Rattle.c_answers.specs.Answers.{box3_answer_of};

    ghost from_gives = { λ answer told. told ≡ box3_answer_of answer };

    fn from(answer: Result<Aabb3, Refusal>) -> Box3Answer {
        Box3Answer {
            status: status(answer),
            value: answer.unwrap_or(NO_BOX3),
        }
    }
}

impl From<Result<bool, Refusal>> for BoolAnswer {
    ghost use Rattle.c_answers.specs.Answers.{bool_answer_of};

    ghost from_gives = { λ answer told. told ≡ bool_answer_of answer };

    fn from(answer: Result<bool, Refusal>) -> BoolAnswer {
        BoolAnswer {
            status: status(answer),
            value: answer.unwrap_or(false),
        }
    }
}

impl From<Crossing> for IntervalAnswer {
    ghost use Rattle.c_answers.specs.Answers.{interval_answer_of};

    ghost from_gives = { λ answer told. told ≡ interval_answer_of answer };

    fn from(answer: Crossing) -> IntervalAnswer {
        match answer {
            Crossing::Miss => IntervalAnswer {
                status: NONE,
                tmin: 0.0,
                tmax: 0.0,
                edge: 0,
            },
            Crossing::Hit { tmin, tmax, edge } => IntervalAnswer {
                status: ANSWERED,
                tmin,
                tmax,
                edge: edge.number(),
            },
        }
    }
}

impl From<Result<Pixels, Refusal>> for PixelsAnswer {
    ghost use Rattle.c_answers.specs.Answers.{pixels_answer_of};

    ghost from_gives = { λ answer told. told ≡ pixels_answer_of answer };

    fn from(answer: Result<Pixels, Refusal>) -> PixelsAnswer {
        let Pixels { x0, y0, x1, y1 } = answer.unwrap_or(NO_PIXELS);
        PixelsAnswer {
            status: status(answer),
            x0,
            y0,
            x1,
            y1,
        }
    }
}

impl From<Result<usize, Refusal>> for CountAnswer {
    ghost use Rattle.c_answers.specs.Answers.{count_answer_of};

    ghost from_gives = { λ answer told. told ≡ count_answer_of answer };

    fn from(answer: Result<usize, Refusal>) -> CountAnswer {
        CountAnswer {
            status: status(answer),
            count: answer.unwrap_or(0),
            place: 0,
        }
    }
}

// By cases: each field by a call of its own would be no plainer.
impl From<Result<usize, RefusalAt>> for CountAnswer {
    ghost use Rattle.c_answers.specs.Answers.{count_answer_at_of};

    ghost from_gives = { λ answer told. told ≡ count_answer_at_of answer };

    fn from(answer: Result<usize, RefusalAt>) -> CountAnswer {
        match answer {
            Ok(count) => CountAnswer {
                status: ANSWERED,
                count,
                place: 0,
            },
            Err(at) => CountAnswer {
                status: at.refusal.number(),
                count: 0,
                place: at.place,
            },
        }
    }
}

// By cases: each field by a call of its own would be no plainer.
impl From<Result<f32, RefusalAt>> for InkAnswer {
    ghost use Rattle.c_answers.specs.Answers.{ink_answer_of};

    ghost from_gives = { λ answer told. told ≡ ink_answer_of answer };

    fn from(answer: Result<f32, RefusalAt>) -> InkAnswer {
        match answer {
            Ok(value) => InkAnswer {
                status: ANSWERED,
                value,
                place: 0,
            },
            Err(at) => InkAnswer {
                status: at.refusal.number(),
                value: 0.0,
                place: at.place,
            },
        }
    }
}
