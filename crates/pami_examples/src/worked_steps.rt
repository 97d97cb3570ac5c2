//! Worked steps of small models: what is chosen, who enters, what a turn does, which scripts there are and which is refused.

ghost use Rattle.std.specs.Prelude.{◌≡◌, true, [], ◌∷◌, map, None, Some, pos};
ghost use Rattle.pami_frac.specs.declared.arithmetic.Op.TheVariants.{Div};
ghost use Rattle.pami_theory.specs.Start.{starting_basis};
ghost use Rattle.pami_theory.specs.declared.words.Side.TheVariants.{Below};
ghost use Rattle.pami_theory.specs.Ratio.{walk_order, ratio_walk};
ghost use Rattle.pami_theory.specs.Step.{leaving_at, basis_after, theta};
ghost use Rattle.pami_theory.specs.Weights.{weights_after};
ghost use Rattle.pami_theory.specs.Choice.{chosen};
ghost use Rattle.pami_method.specs.Task.{Task};
ghost use Rattle.pami_method.specs.declared.words.Spot.TheVariants.{Choose, Factor, Backward, Row, Price, Ratio, Step, Reach, Shift, Column, Flips, Transform, Values};
ghost use Rattle.pami_method.specs.Batch.{AtLimit, NoRow, Stuck, Pivots, turn};
ghost use Rattle.pami_method.specs.Work.{work};
ghost use Rattle.pami_method.specs.Walk.{history_of, refused_in};
ghost use Rattle.pami_method.specs.Phases.{starting_state};
ghost use Rattle.pami_examples.specs.Words.{whole, minus, part, minus_part, row, usual};
ghost use Rattle.pami_examples.specs.Blending.{blending, blending_first_fresh, blending_second, blending_fourth};
ghost use Rattle.pami_examples.specs.Passing.{passing, passing_first_fresh, passing_first};
ghost use Rattle.pami_examples.specs.Dropping.{dropping, dropping_second};
ghost use Rattle.pami_examples.specs.Flipping.{flipping, flipping_first_fresh, flipping_second_fresh, flipping_second_basis, flipping_first, flipping_third, flipping_minor_1, flipping_minor_2, flipping_major};
ghost use Rattle.pami_examples.specs.Stopping.{stopping, stopping_second, stopping_third};
ghost use Rattle.pami_examples.specs.Refusing.{refusing, refusing_first_fresh, refusing_second, refusing_major, refusing_major_2};

/// Rows are chosen by merit, then by infeasibility, then by place.
pub fn greater_merit_is_chosen_first()
    ensures all { chosen blending (starting_basis blending) blending_first_fresh (1 ∷ 1 ∷ 1 ∷ 1 ∷ 1 ∷ []) 4
        ≡ row 4 Below (whole 53) (pos 10) ∷ row 0 Below (whole 10) (pos 6) ∷ row 1 Below (whole 4) (pos 4) ∷ [] }
    ensures equal { chosen flipping (starting_basis flipping) flipping_first_fresh (1 ∷ 1 ∷ []) 4
        ≡ row 0 Below (whole 3) (pos 2) ∷ row 1 Below (whole 2) (pos 2) ∷ [] }
    ensures most { chosen refusing (starting_basis refusing) refusing_first_fresh (1 ∷ 1 ∷ []) 1 ≡ row 0 Below (whole 100) (pos 12) ∷ [] }
{}

/// Weights behind a pivot: powers of 4 by the difference in digits, not below what they were, and at most 2^40; that of the
/// pivot's place falls.
pub fn weights_follow_the_column()
    ensures rises { weights_after (whole 3 ∷ part 1 4 ∷ whole 0 ∷ whole 64 ∷ []) 1 (1 ∷ 4 ∷ 2 ∷ 1 ∷ []) ≡ 256 ∷ 4 ∷ 2 ∷ 262144 ∷ [] }
    ensures falls { weights_after (minus 1 ∷ minus 2 ∷ []) 1 (7 ∷ 100 ∷ []) ≡ 100 ∷ 25 ∷ [] }
    ensures least { weights_after (whole 64 ∷ []) 0 (5 ∷ []) ≡ 1 ∷ [] }
    ensures greatest { weights_after (whole 1048576 ∷ whole 1 ∷ []) 1 (1 ∷ 1024 ∷ []) ≡ 1099511627776 ∷ 1024 ∷ [] }
{}

/// Candidates are walked by ratio; boxed ones are passed while the slope stays above 0, and then flipped.
pub fn candidates_are_walked_by_ratio()
    ensures order { walk_order flipping (starting_basis flipping) (leaving_at flipping_first_fresh 0 (row 0 Below (whole 3) (pos 2)).violation) ≡ 0 ∷ 1 ∷ [] }
    ensures passed { ratio_walk flipping (starting_basis flipping) (leaving_at flipping_first_fresh 0 (row 0 Below (whole 3) (pos 2)).violation)
        ≡ Some (record { variable = 1; tau = whole 2; flips = 0 ∷ [] }) }
    ensures order_later { walk_order flipping flipping_second_basis (leaving_at flipping_second_fresh 1 (row 1 Below (whole 1) (pos 0)).violation) ≡ 0 ∷ 3 ∷ 2 ∷ [] }
    ensures stopped { ratio_walk flipping flipping_second_basis (leaving_at flipping_second_fresh 1 (row 1 Below (whole 1) (pos 0)).violation)
        ≡ Some (record { variable = 0; tau = part 1 2; flips = [] }) }
    ensures all_passed { ratio_walk passing (starting_basis passing) (leaving_at passing_first_fresh 0 (row 0 Below (whole 5) (pos 4)).violation) ≡ None }
{}

/// The primal step lengths, and the basis behind a step with a flip.
pub fn steps_have_their_lengths()
    ensures first { theta flipping (starting_basis flipping) flipping_first_fresh flipping_minor_1.step ≡ whole 2 }
    ensures second { theta flipping flipping_second_basis flipping_second_fresh flipping_minor_2.step ≡ minus_part 1 2 }
    ensures basis { basis_after (starting_basis flipping) flipping_minor_1.step ≡ flipping_second_basis }
{}

/// Turns: a flip and a pivot, a row that is dropped before a pivot or at the end, a row that no variable enters, the limit.
pub fn turns_end_or_pivot()
    ensures pivots { turn blending 100000 blending_second
        ≡ Pivots [] (row 0 Below (whole 10) (pos 6)) (record { place = 0; leaving = 6; side = Below; entering = 0; tau = whole 3; flips = 1 ∷ [] }) }
    ensures drops { turn dropping 100000 dropping_second
        ≡ Pivots (1 ∷ []) (row 2 Below (whole 1) (pos 0)) (record { place = 2; leaving = 4; side = Below; entering = 1; tau = whole 1; flips = [] }) }
    ensures no_row { turn blending 100000 blending_fourth ≡ NoRow [] }
    ensures last_dropped { turn refusing 100000 refusing_second ≡ NoRow (1 ∷ []) }
    ensures passed { turn passing 100000 passing_first ≡ Stuck [] (row 0 Below (whole 5) (pos 4)) }
    ensures stuck { turn stopping 100000 stopping_third ≡ Stuck [] (row 2 Below (whole 4) (pos 4)) }
    ensures at_limit { turn stopping 1 stopping_second ≡ AtLimit }
{}

/// The scripts of a major of two pivots, in their order, all of which fit.
pub fn a_major_has_its_scripts()
    ensures scripts { map (λ (t : Task). t.spot) (work flipping 100000 (history_of usual (starting_state flipping) flipping_major) true flipping_first (flipping_minor_1 ∷ flipping_minor_2 ∷ []) flipping_third)
        ≡ Choose ∷ Factor ∷ Backward 0 ∷ Backward 1
        ∷ Row 1 ∷ Price 1 0 ∷ Ratio 1 ∷ Step 1 ∷ Reach 1 1 ∷ Shift 1 0
        ∷ Row 2 ∷ Price 2 0 ∷ Ratio 2 ∷ Step 2 ∷ Shift 2 0
        ∷ Row 3 ∷ Column 1 ∷ Column 2 ∷ Flips ∷ Transform 1 ∷ Transform 2 ∷ Values ∷ [] }
    ensures fit { refused_in flipping usual (starting_state flipping) flipping_major ≡ None }
{}

/// A quotient that doesn't fit in the update of a remaining row rolls a major back; alone, the first row's major fits.
pub fn a_major_may_be_refused()
    ensures refused { refused_in refusing usual (starting_state refusing) refusing_major
        ≡ Some (record { task = Reach 1 1; refused = record { op = Div; left = minus_part 1 100000000000000000000000000000000000000; right = minus 10 } }) }
    ensures alone { refused_in refusing usual (starting_state refusing) refusing_major_2 ≡ None }
{}
