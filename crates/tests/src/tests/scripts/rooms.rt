//! Capacities, reservations, shrinks, limits and rollbacks.
use super::each::{Script, try_on_each, try_on_packed};

const ROOMS: &str = "
tables_are_made_of_their_capacity:
    with_capacity 0 > done; capacity > 0; with_capacity 1 > done; capacity > 1
    with_capacity 10 > done; capacity > 16; with_capacity 4097 > done; capacity > 8192
    new > done; capacity > 4096; with_hasher > done; capacity > 4096; limit > 4294967296
    with_capacity_and_hasher 10 > done; capacity > 10
    with_capacity 4294967297 > capacity overflow
    with_capacity 18446744073709551615 > capacity overflow
    with_capacity_and_hasher 4294967297 > capacity overflow
a_table_grows_from_nothing_to_a_hundred:
    with_capacity_and_hasher 0 > done; intern_numbers 1 > done; fits 4 > true
    intern_numbers 5 > done; fits 8 > true; intern_numbers 9 > done; fits 16 > true
    intern_numbers 17 > done; fits 32 > true; intern_numbers 33 > done; fits 64 > true
    intern_numbers 65 > done; fits 128 > true; intern_numbers 100 > done; check_numbers 100 > done
    fits 100 > true
a_reservation_grows_the_capacity:
    with_capacity 1 > done; lend abc\0 > 0; try_reserve 10 > done; capacity > 11
    with_capacity 1 > done; lend abc\0 > 0; reserve 10 > done; capacity > 11
    lend b\0, c\0, d\0, e\0, f\0, g\0, h\0, i\0, j\0, k\0 > 1, 2, 3, 4, 5, 6, 7, 8, 9, 10
a_reservation_above_the_symbols_is_refused:
    new > done; try_reserve 18446744073709551615 > capacity overflow
    with_hasher > done; intern abc > 0; try_reserve 18446744073709551615 > capacity overflow
    reserve 4294967296 > capacity overflow; len > 1; capacity > 4096
a_shrink_leaves_what_was_asked_for:
    with_capacity_and_hasher 10 > done; intern a, b, c > 0, 1, 2; shrink_to 5 > done; capacity > 5
    shrink_to 18446744073709551615 > done; capacity > 5; shrink_to_fit > done; capacity > 3
    check c > 2; intern d > 3
    with_capacity 10 > done; intern a, b, c > 0, 1, 2; shrink_to_fit > done; fits 3 > true
    with_capacity 10 > done; intern a, b, c > 0, 1, 2; shrink_to 5 > done; fits 5 > true
    with_capacity 1 > done; intern a > 0; shrink_to 5 > done; capacity > 1
a_limit_is_from_one_to_the_number_of_symbols:
    with_limit 0 > capacity overflow; with_limit 4294967297 > capacity overflow
    with_limit 4294967296 > done; limit > 4294967296; capacity > 0; with_limit 1 > done; limit > 1
a_full_table_still_finds:
    with_limit 2 > done; intern a, b, c, a > 0, 1, Symbol overflow, 0; len > 2
room_is_reserved_up_to_the_limit:
    with_limit 3 > done; reserve 4 > capacity overflow; reserve 3 > done
    intern a, b, c, d > 0, 1, 2, Symbol overflow; reserve 1 > capacity overflow; intern b > 1
    clear > done; intern d > 0
contents_after_a_mark_are_dropped:
    with_hasher > done; intern a > 0; mark > 1; intern b, c > 1, 2; take_back 1 > done
    capacity > 4096; check b > none; intern c > 1; get 1 > c; take_back 5 > stale mark; len > 2
marks_are_taken_back_from_last_to_first:
    with_hasher > done; intern a > 0; mark > 1; intern b > 1; mark > 2; intern c > 2
    take_back 2 > done; len > 2; take_back 1 > done; len > 1; take_back 2 > stale mark; len > 1
a_mark_is_judged_by_its_number:
    with_hasher > done; intern a, b > 0, 1; mark > 2; clear > done; intern x, y, z > 0, 1, 2
    take_back 2 > done; get 1, 2 > y, none
a_full_table_is_taken_back:
    with_limit 2 > done; intern a, b, c > 0, 1, Symbol overflow; take_back 1 > done
    intern c, d > 1, Symbol overflow
";

#[test]
fn room_is_made_limited_and_given_back(rt: HostRuntime) {
    try_on_each(&rt, &Script(ROOMS));
}

const PACKED: &str = "
a_packed_table_has_room_and_gives_it_up:
    with_capacity_and_hasher 0 > done; capacity > 0; reserve 3 > done; reserve_bytes 1000 > done
    fits 3 > true; get_or_intern abc > 0; shrink_to_fit > done; capacity > 1; get 0 > abc; check abc > 0
";

#[test]
fn a_packed_table_has_room_and_gives_it_up(rt: HostRuntime) {
    try_on_packed(&rt, &Script(PACKED));
}
