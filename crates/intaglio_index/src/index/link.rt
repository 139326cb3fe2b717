//! Links between the symbols of a bucket.
ghost use Rattle.std.specs.Prelude.{◌≡◌, ◌<◌, length};
ghost use Rattle.intaglio_index.specs.Links.{next_of};

use intaglio_symbol::Symbol;

// The next symbol after another in its bucket. The last one of a bucket is linked to itself.
pub(super) fn next(links: &[Symbol], symbol: Symbol) -> Option<Symbol>
    requires { symbol < length links.now }
    ensures { result ≡ next_of links.now symbol }
{
    let link = links[symbol.id() as usize];
    if link == symbol { None } else { Some(link) }
}
