//! The iterators of tables of each kind, from both ends.
use super::each::{RunOut, Script, try_on_each};

const WALKS: &str = "
iterators_go_from_both_ends:
    new > done; intern abc, xyz, 123, 789 > 0, 1, 2, 3; symbols next nth_back(2) next > 0, 1, none
    forms next nth_back(2) next > abc, xyz, none
    pairs next next next next next next > 0 abc, 1 xyz, 2 123, 3 789, none, none
    each next next next next next > 0 abc, 1 xyz, 2 123, 3 789, none
ends_are_taken_in_turn:
    new > done; intern a, b, c > 0, 1, 2
    symbols size_hint next_back next size_hint next next next_back > \
(3, Some(3)), 2, 0, (1, Some(1)), 1, none, none
    forms len next_back len size_hint next next next next_back > \
3, c, 2, (2, Some(2)), a, b, none, none
    pairs next size_hint next next next > 0 a, (2, Some(2)), 1 b, 2 c, none
    each next size_hint next next next > 0 a, (2, Some(2)), 1 b, 2 c, none
the_pairs_of_a_table_are_counted:
    new > done; intern abc, xyz, 123, 789 > 0, 1, 2, 3; pairs count next count > 4, 0 abc, 3
nothing_comes_of_an_empty_table:
    new > done; symbols size_hint next next_back > (0, Some(0)), none, none
    forms len next next_back > 0, none, none; pairs size_hint next > (0, Some(0)), none
    each size_hint next > (0, Some(0)), none
a_table_yields_its_texts:
    new > done; intern abc, x, xy > 0, 1, 2; symbols next_back next > 2, 0
    forms size_hint next next size_hint next next size_hint next > \
(3, Some(3)), abc, x, (1, Some(1)), xy, none, (0, Some(0)), none
    pairs size_hint next next size_hint next next next > \
(3, Some(3)), 0 abc, 1 x, (1, Some(1)), 2 xy, none, none
";

#[test]
fn iterators_yield_what_is_stored(rt: HostRuntime) {
    try_on_each(&rt, &Script(WALKS));
}

#[test]
fn run_out_symbols_are_those_of_an_empty_table(rt: HostRuntime) {
    try_on_each(&rt, &RunOut);
}
