//! The components of paths, and that paths are equal exactly if their components are.
use crate::tests::assertions::{holds, same};
use intaglio::path::{Component, Path, PathContent};
use intaglio::{Sought, Work};
use std::hash::{BuildHasherDefault, FoldHasher};
use std::process::Abort;

// A line for each text: the text, `>`, and its components with bars between them. `R` is the root, `C` a `.`
// and `P` a `..`; the others are names.
const TABLE: &str = "\
>\n.>C\n./>C\n./.>C\n.//.>C\n/>R\n//>R\n/.>R\n/./>R\n..>P\n/..>R|P\n../..>P|P\n./..>C|P\n\
a>a\na/>a\na/.>a\na/./>a\na/..>a|P\na/b>a|b\na//b>a|b\na/./b>a|b\na/b/>a|b\n./a/b>C|a|b\n\
/a/b>R|a|b\n//a/b>R|a|b\n/./a/b>R|a|b\na/../b>a|P|b\n...>...\n.a/b.>.a|b.\na b/c>a b|c\n\
";

fn named(word: &str) -> Component<'_> {
    match word {
        "R" => Component::RootDir,
        "C" => Component::CurDir,
        "P" => Component::ParentDir,
        name => Component::Normal(name),
    }
}

// Whether the components are the expected ones, and `next` keeps returning `None` after them.
fn gives(text: &str, wanted: &str) -> bool {
    let mut rest = Path::new(text).components();
    if !wanted.is_empty() {
        for word in wanted.split('|') {
            if rest.next() != Some(named(word)) {
                return false;
            }
        }
    }
    rest.next().is_none() && rest.next().is_none()
}

#[test]
fn components_are_those_of_the_table(rt: HostRuntime) {
    let all = TABLE.lines().all(|line| match line.split_once('>') {
        Some((text, wanted)) => gives(text, wanted),
        None => false,
    });
    holds(&rt, all);
}

fn hash(text: &str) -> u64 {
    let builder: BuildHasherDefault<FoldHasher> = BuildHasherDefault::new();
    Path::new(text).hash_with(&builder, &mut Work::new())
}

fn compares(left: &str, right: &str, wanted: bool) -> bool {
    let same = Path::new(left) == Path::new(right);
    same == wanted && (!same || hash(left) == hash(right))
}

fn compares_with_all(left: &str, lefts: &str) -> bool {
    TABLE.lines().all(|line| match line.split_once('>') {
        Some((right, rights)) => compares(left, right, lefts == rights),
        None => false,
    })
}

#[test]
fn all_pairs_compare_as_their_lists(rt: HostRuntime) {
    same(&rt, TABLE.lines().count(), 30);
    let all = TABLE.lines().all(|line| match line.split_once('>') {
        Some((left, lefts)) => compares_with_all(left, lefts),
        None => false,
    });
    holds(&rt, all);
}

#[test]
fn a_clone_goes_on_from_where_it_was_made(rt: HostRuntime) {
    let mut rest = Path::new("/a").components();
    same(&rt, rest.next(), Some(Component::RootDir));
    let mut copy = rest.clone().expect(&rt, "a clone takes no memory");
    same(&rt, copy.next(), Some(Component::Normal("a")));
    same(&rt, copy.next(), None);
    same(&rt, rest.next(), Some(Component::Normal("a")));
}
