use bng_engine::{
    Toy, Widest, octets_tell_charges, one_pool_makes_turns, parts_of_turns, rounds_can_be_audited,
    runs_are_accounted, shards_conserve, shards_may_show_entries, still_protocols_need_no_pool,
    terms_leave_in_order, toy_entries_are_alike, toy_rounds_are_told_apart, toy_turn_is_a_round,
    traces_tell_rounds, turns_are_runs,
};

// The laws of runs and turns hold of the widest protocol.
fn turns_of_the_widest() {
    runs_are_accounted::<Widest>();
    rounds_can_be_audited::<Widest>();
    turns_are_runs::<Widest>();
    parts_of_turns::<Widest>();
    one_pool_makes_turns::<Widest>();
}

// And those of its shards.
fn shards_of_the_widest() {
    shards_conserve::<Widest>();
    still_protocols_need_no_pool::<Widest>();
    terms_leave_in_order::<Widest>();
    shards_may_show_entries::<Widest>();
    octets_tell_charges::<Widest>();
}

#[test]
fn laws_hold_of_the_widest_protocol() {
    turns_of_the_widest();
    shards_of_the_widest();
}

// The laws of runs and turns hold of a protocol with claims.
fn turns_with_claims() {
    runs_are_accounted::<Toy>();
    rounds_can_be_audited::<Toy>();
    turns_are_runs::<Toy>();
    parts_of_turns::<Toy>();
    one_pool_makes_turns::<Toy>();
}

// And those of its shards.
fn shards_with_claims() {
    shards_conserve::<Toy>();
    still_protocols_need_no_pool::<Toy>();
    terms_leave_in_order::<Toy>();
    shards_may_show_entries::<Toy>();
    octets_tell_charges::<Toy>();
}

// Its rounds are told by traces and its turn is one, as entries and rounds with claims show.
fn rounds_with_claims() {
    traces_tell_rounds::<Toy>();
    toy_entries_are_alike();
    toy_rounds_are_told_apart();
    toy_turn_is_a_round();
}

#[test]
fn laws_hold_of_a_protocol_with_claims() {
    turns_with_claims();
    shards_with_claims();
    rounds_with_claims();
}
