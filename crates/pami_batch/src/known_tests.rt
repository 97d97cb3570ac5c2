//! First batches of models whose steps can be followed by hand. Their lines were worked out by hand, and say the same as the
//! texts that these models have in the tests of the program.

use crate::drawn_tests::{Drawn, have_their_lines};
use std::test::Fail;

const KNOWN: [Drawn; 4] = [
    // The column of the first pivot meets the second row too, which is dropped; the third stays.
    Drawn {
        rows: "8 -|4 -|1 -",
        columns: "1 0 - 1 1 0|1 0 - 0 0 1",
        most: 3,
        limit: 9,
        due: "chosen 0 1 2|step 0 2 0 1 8 8 0 0 0 0|row 1 1 -1 0|row 2 0 0 -1|drop 1|step 2 4 1 1 1 1 0 0 0 0|stop|values 8 8 1|weights 1 1 1|costs 0 0 1 0 1|",
    },
    // A column is flipped by the first pivot, and enters from there in the second.
    Drawn {
        rows: "3 -|2 -",
        columns: "1 0 1 1 -1|2 0 - 1 1|5 0 - 0 1",
        most: 4,
        limit: 9,
        due: "chosen 0 1|flip 0|step 0 3 1 2 2 3 0 1 -1|row 1 1 -1|step 1 4 0 1/2 -1/2 2 1 0 0|stop|values 5/2 1/2|weights 1 1|costs 0 0 9/2 3/2 1/2|",
    },
    // The row that leaves in the first pivot enters in the second.
    Drawn {
        rows: "40 -|6 -",
        columns: "1 0 - 10 1",
        most: 4,
        limit: 9,
        due: "chosen 0 1|step 0 1 0 1/10 4 40 0 0 0|row 1 1/10 -1|step 1 2 1 1 20 6 40 0 0|stop|values 6 60|weights 1 1|costs 0 0 1|",
    },
    // Behind two pivots nothing can enter in the third row.
    Drawn {
        rows: "32 -|16 -|4 -",
        columns: "1 0 - 1 0 0|1 0 - 0 1 0|1 0 1 0 0 1",
        most: 4,
        limit: 9,
        due: "chosen 0 1 2|step 0 3 0 1 32 32 0 0 0 0|row 1 0 -1 0|row 2 0 0 -1|step 1 4 1 1 16 16 0 0 0 0|row 2 0 0 -1|none 2|",
    },
];

#[test]
pub fn known_batches_have_their_lines(rt: HostRuntime) -> Result<(), Fail> {
    have_their_lines(&rt, rt.alloc(), KNOWN.as_slice())
}
