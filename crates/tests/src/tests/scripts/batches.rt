//! Batches: contents or forms that one call interns or looks up.
use super::each::{Script, on_texts, try_on_each};

const BATCHES: &str = "
contents_interned_together_get_the_symbols_of_internings_in_order:
    with_limit 4 > done; intaglio::intern_all b a b > [Symbol(0), Symbol(1), Symbol(0)]; len > 2
    intaglio::intern_all a c c a > [Symbol(1), Symbol(2), Symbol(2), Symbol(1)]; len > 3
    intaglio::intern_all > []; len > 3; intaglio::intern_all d a e > Symbol overflow; len > 3
    intaglio::intern_all c d > [Symbol(2), Symbol(3)]; len > 4
    intaglio::get_or_intern_all d a > [Symbol(3), Symbol(1)]; len > 4
contents_interned_together_are_hashed_once_each:
    with_equal_hashes 4096 > done
    intaglio::intern_all b a b a c > [Symbol(0), Symbol(1), Symbol(0), Symbol(1), Symbol(2)]
    hashers > 5
a_table_interns_and_finds_forms_together:
    with_limit 4 > done; get_or_intern_all b a b > [Symbol(0), Symbol(1), Symbol(0)]; len > 2
    get_or_intern_all a c c a > [Symbol(1), Symbol(2), Symbol(2), Symbol(1)]; len > 3
    get_or_intern_all > []; len > 3; get_or_intern_all d a e > Symbol overflow; len > 3
    get_or_intern_all c d > [Symbol(2), Symbol(3)]; len > 4
    check_all c e b > [Some(Symbol(2)), None, Some(Symbol(0))]
a_table_interns_contents_together:
    with_limit 4 > done; intern_all b a b > [Symbol(0), Symbol(1), Symbol(0)]; len > 2
    intern_all a c c a > [Symbol(1), Symbol(2), Symbol(2), Symbol(1)]; len > 3; intern_all > []
    len > 3; intern_all d a e > Symbol overflow; len > 3; intern_all c d > [Symbol(2), Symbol(3)]
    len > 4
forms_are_interned_as_their_contents:
    with_limit 2 > done; get_or_intern b > 0; intern a > 1
    get_or_intern a, b, c > 1, 0, Symbol overflow; len > 2; get 0 > b; get_or_intern b > 0
a_form_is_hashed_once:
    with_equal_hashes 0 > done; get_or_intern b, a, b > 0, 1, 0; hashers > 3
";

#[test]
fn a_batch_gets_the_symbols_of_its_contents_in_order(rt: HostRuntime) {
    try_on_each(&rt, &Script(BATCHES));
}

// From 2^14 contents on, values are hashed ahead.
const LARGE: &str = "
a_batch_that_makes_a_table_large_goes_on_in_groups:
    new > done; intern_numbers 16382 > done
    intern_all a b a c d b > [Symbol(16382), Symbol(16383), Symbol(16382), Symbol(16384), Symbol(16385), Symbol(16383)]
    check_all d e a 7 > [Some(Symbol(16385)), None, Some(Symbol(16382)), Some(Symbol(7))]
    get_or_intern_all e d f e 8 > [Symbol(16386), Symbol(16385), Symbol(16387), Symbol(16386), Symbol(8)]
    intern_all > []; check_all > []; len > 16388
";

#[test]
fn a_batch_that_makes_a_table_large_goes_on_in_groups(rt: HostRuntime) {
    on_texts(&rt, LARGE);
}
