//! Interning, looking up and clearing, with texts as contents of each kind.
use super::each::{Script, try_on_each};

const TEXTS: &str = "
equal_texts_have_one_symbol:
    new > done; intern abc, abc, xyz > 0, 0, 1; len > 2; get 0, 1, 2 > abc, xyz, none
the_empty_text_is_a_text:
    with_hasher > done; intern > 0; intern x > 1; intern > 0; clear > done; intern x > 0
    get 1 > none
a_cleared_table_begins_at_zero:
    with_hasher > done; intern a, b > 0, 1; clear > done; intern c > 0; get 0, 1 > c, none
    contains 1 > false
a_cleared_table_keeps_its_capacity:
    with_hasher > done; intern a, b, c > 0, 1, 2; clear > done; capacity > 4096; intern x > 0
    get 0, 2 > x, none; contains 2 > false; check a > none
a_text_is_found_once_it_is_interned:
    with_hasher > done; get_interned abc > none; intern abc > 0; get_interned abc > 0 abc
    is_interned abc > true; clear > done; is_empty > true; is_interned abc > false
texts_are_not_normalised:
    with_hasher > done; intern \u{e4}, a\u{308}, \u{e4} > 0, 1, 0
owned_and_borrowed_agree:
    new > done; intern abc > 0; get 0 > abc; intern abc > 0; lend abc\0 > 0
    new > done; lend abc\0 > 0; get 0 > abc; intern abc > 0; lend abc\0 > 0
an_index_gives_the_stored_content:
    new > done; intern abc > 0; index 0 > abc
tables_are_made_and_dropped:
    new > done; with_capacity 16384 > done
    new > done; lend 1\0, 2\0, 3\0, 4\0, 5\0 > 0, 1, 2, 3, 4
    new > done; intern 1, 2, 3, 4, 5 > 0, 1, 2, 3, 4
owned_texts_of_a_hundred_bytes_are_kept_once:
    with_capacity_and_hasher 0 > done; keep_numbers 100 > done; len > 100
an_empty_table_contains_no_symbol:
    new > done
    contains 0, 1, 17, 4095, 4096, 4294967294 > false, false, false, false, false, false
    contains 4294967295 > false
";

#[test]
fn texts_are_interned_and_found(rt: HostRuntime) {
    try_on_each(&rt, &Script(TEXTS));
}
