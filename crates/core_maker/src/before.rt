//! What is known before a link of a chain, and what its operands are wanted as.

ghost use Rattle.std.specs.Prelude.{◌≡◌, ◌∷◌, map};
ghost use Rattle.ivory_tree.specs.View as text;
ghost use Rattle.source_types.specs.Settled as table;
ghost use Rattle.rule_checker.specs.View.{type_at};
ghost use Rattle.typing_rules.specs.ExpressionCores as cores;
ghost use Rattle.core_maker.specs.Chains as along;
ghost use Rattle.core_maker.specs.Places.{env_of, Agrees};

use crate::place::{Place, own};
use core_parts::{gives_truth, is_logic};
use iv_words::Seq;
use ivory_tree::{Expr, Link};
use rule_checker::{TypeRef, is_settled};

/// Of what stands before a link: whether it is settled, its own type, and what it is wanted as.
#[derive(Clone, Copy)]
pub(crate) struct Before<'a> {
    pub settled: bool,
    pub own: TypeRef<'a>,
    pub lead: TypeRef<'a>,
}

/// The type of the operator, by its form.
fn link_own<'a>(place: &'a Place, settled: bool, before: TypeRef<'a>, link: &Link) -> TypeRef<'a>
    requires { Agrees place.now }
    ensures { type_at result ≡ along.link_own (env_of place.now) settled (type_at before.entry) (text.link_of link.now) }
{
    if gives_truth(link.op) {
        return TypeRef::Bool;
    }
    if settled {
        return before;
    }
    if is_settled(&link.right) {
        return own(place, &link.right);
    }
    before
}

fn link_settled(settled: bool, link: &Link) -> bool
    ensures { result ≡ along.link_settled settled (text.link_of link.now) }
{
    gives_truth(link.op) || settled || is_settled(&link.right)
}

/// What stands before these links is wanted as this, where the whole is wanted as `want`.
fn lead_of<'a>(
    place: &'a Place,
    want: TypeRef<'a>,
    settled: bool,
    before: TypeRef<'a>,
    links: &Seq<Link>,
) -> TypeRef<'a>
    requires { Agrees place.now }
    ensures { type_at result ≡ along.want_of (env_of place.now) (type_at want.entry) settled (type_at before.entry) (map text.link_of links.now) }
{
    let mut done = settled;
    let mut so_far = before;
    for link in links.as_slice() {
        if is_logic(link.op) {
            return TypeRef::Bool;
        }
        if done {
            return so_far;
        }
        if is_settled(&link.right) {
            return own(place, &link.right);
        }
        so_far = link_own(place, done, so_far, link);
        done = link_settled(done, link);
    }
    want
}

/// Before the first of the links.
pub(crate) fn before_links<'a>(
    place: &'a Place,
    want: TypeRef<'a>,
    first: &Expr,
    links: &Seq<Link>,
) -> Before<'a>
    requires { Agrees place.now }
    ensures settled { result.settled ≡ table.settled (text.expr_of first.now) }
    ensures own { type_at result.own ≡ cores.own (env_of place.now) (text.expr_of first.now) }
    ensures lead { type_at result.lead ≡ along.first_want (env_of place.now) (type_at want.entry) (text.expr_of first.now) (map text.link_of links.now) }
{
    let settled = is_settled(first);
    let own = own(place, first);
    Before {
        settled,
        own,
        lead: lead_of(place, want, settled, own, links),
    }
}

fn next_lead<'a>(
    want: TypeRef<'a>,
    settled: bool,
    own: TypeRef<'a>,
    lead: TypeRef<'a>,
    rest: &[Link],
) -> TypeRef<'a>
    ensures { type_at result ≡ along.next_lead (type_at want.entry) settled (type_at own.entry) (type_at lead.entry) (map text.link_of rest.now) }
{
    match rest.first() {
        Some(link) => {
            if is_logic(link.op) {
                return TypeRef::Bool;
            }
            if settled { own } else { lead }
        }
        None => want,
    }
}

/// Behind the link, before the rest.
pub(crate) fn after_link<'a>(
    place: &'a Place,
    want: TypeRef<'a>,
    before: Before<'a>,
    link: &Link,
    rest: &[Link],
) -> Before<'a>
    requires agrees { Agrees place.now }
    requires lead { type_at before.lead ≡ along.want_of (env_of place.now) (type_at want) before.settled (type_at before.own) (text.link_of link.now ∷ map text.link_of rest.now) }
    ensures settled { result.settled ≡ along.link_settled before.entry.settled (text.link_of link.now) }
    ensures own { type_at result.own ≡ along.link_own (env_of place.now) before.entry.settled (type_at before.entry.own) (text.link_of link.now) }
    ensures lead { type_at result.lead ≡ along.want_of (env_of place.now) (type_at want.entry) result.settled (type_at result.own) (map text.link_of rest.now) }
{
    let settled = link_settled(before.settled, link);
    let own = link_own(place, before.settled, before.own, link);
    Before {
        settled,
        own,
        lead: next_lead(want, settled, own, before.lead, rest),
    }
}
