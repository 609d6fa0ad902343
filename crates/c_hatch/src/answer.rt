// What a read or a merge of hatch lists answers, as C sees it: a status beside the value, as in c_answers.
ghost use Rattle.std.specs.Prelude.{◌≡◌};

use c_answers::ANSWERED;
use hatch_merge::RefusalIn;
use hatch_read::Read;
use types::RefusalAt;

// The version of a hatch list, and how many records were read.
#[repr(C)]
#[derive(Clone, Copy, Debug, PartialEq, Eq)]
pub struct ReadAnswer {
    pub status: u32,
    // The version.
    pub version: usize,
    // The number of records.
    pub count: usize,
    // The byte of a refusal, and else 0.
    pub place: usize,
}

// Written by cases: a call for each field would be no plainer.
impl From<Result<Read, RefusalAt>> for ReadAnswer {
    ghost use Rattle.c_hatch.specs.Answer.{read_answer_of};

    ghost from_gives = { λ answer told. told ≡ read_answer_of answer };

    fn from(answer: Result<Read, RefusalAt>) -> ReadAnswer {
        match answer {
            Ok(Read { version, count }) => ReadAnswer {
                status: ANSWERED,
                version,
                count,
                place: 0,
            },
            Err(at) => ReadAnswer {
                status: at.refusal.number(),
                version: 0,
                count: 0,
                place: at.place,
            },
        }
    }
}

// The length of a merged hatch list.
#[repr(C)]
#[derive(Clone, Copy, Debug, PartialEq, Eq)]
pub struct MergeAnswer {
    pub status: u32,
    // The number of bytes.
    pub count: usize,
    // The list of a refusal, 1 or 2, and else 0.
    pub list: usize,
    // The byte of a refusal, and else 0.
    pub place: usize,
}

impl From<Result<usize, RefusalIn>> for MergeAnswer {
    ghost use Rattle.c_hatch.specs.Answer.{merge_answer_of};

    ghost from_gives = { λ answer told. told ≡ merge_answer_of answer };

    fn from(answer: Result<usize, RefusalIn>) -> MergeAnswer {
        match answer {
            Ok(count) => MergeAnswer {
                status: ANSWERED,
                count,
                list: 0,
                place: 0,
            },
            Err(told) => MergeAnswer {
                status: told.at.refusal.number(),
                count: 0,
                list: told.list.number(),
                place: told.at.place,
            },
        }
    }
}
