// What requests do to the links, by which the edges of inputs drive outputs.
#![tactic(auto)]

ghost use Rattle.std.specs.Prelude.{◌≡◌};
ghost use mathlib.Core.List.{List, foldl};
ghost use Rattle.lists.specs.Tests.{all, any};
ghost use Rattle.lists.specs.Chunks.{chunks};
ghost use Rattle.model.specs.declared.Link.{Link as LinkOf};
ghost use Rattle.model.specs.Numbers.{refused_by};
ghost use Rattle.model.specs.Refusals.{refusal_of};
ghost use Rattle.model.specs.Links.{link_settable, group_link, link_clashes, set_link, set_links};

use model::{Link, Refusal, Thermostat};

// Whether a triple of input, output and action can be set.
// The action is judged as the byte that is stored, for the reason at `model::Link`.
#[tactic(auto, unfolding(model::specs::Links::link_settable))]
fn is_settable(t: &[u8]) -> bool
    ensures { result ≡ link_settable t.now }
{
    let output_and_action = number_lists::is_number(encoding::at(t, 1)) & (encoding::at(t, 2) <= 4);
    number_lists::is_number(encoding::at(t, 0)) & output_and_action
}

// Whether every triple can be set.
fn all_settable(d: &[u8]) -> bool
    ensures { result ≡ all link_settable (chunks 3 d.now) }
{
    d.chunks_exact(3).all(is_settable)
}

// The link that a triple asks for: by action 0 none, and its input is not kept.
#[tactic(auto, unfolding(model::specs::Links::group_link))]
fn link_in(t: &[u8]) -> Link
    ensures { result ≡ group_link t.now }
{
    let input = encoding::at(t, 0);
    let action = encoding::at(t, 2);
    if action == 0 {
        Link::FRESH
    } else {
        Link { input, action }
    }
}

// Whether a triple asks for a link beside an active thermostat.
#[tactic(auto, unfolding(model::specs::Links::link_clashes))]
fn clashes(hs: &[Thermostat; 16], t: &[u8]) -> bool
    ensures { result ≡ link_clashes hs.now t.now }
{
    let n = usize::from(encoding::at(t, 1));
    holding::clashes(link_in(t), output_effects::thermostat_at(hs, n))
}

// Whether some triple does.
fn some_clash(hs: &[Thermostat; 16], d: &[u8]) -> bool
    ensures { result ≡ any (link_clashes hs.now) (chunks 3 d.now) }
{
    d.chunks_exact(3).any(|t| clashes(hs, t))
}

// 40H: why triples are not set, whatever the links: every value is judged before any thermostat.
#[tactic(auto, using(crate::proofs::Lengths::lengths), unfolding(model::specs::Links::set_links, model::specs::Refusals::refusal_of))]
pub fn links_refusal(hs: &[Thermostat; 16], d: &[u8]) -> Result<(), Refusal>
    ensures { (ls : List LinkOf) → refused_by result ≡ refusal_of (set_links hs.now d.now ls) }
{
    encoding::refused_if(!number_lists::items_of(3, d.len()), Refusal::DataLength)?;
    encoding::refused_if(!all_settable(d), Refusal::Value)?;
    encoding::refused_if(some_clash(hs, d), Refusal::Clash)
}

// The links after one triple.
#[tactic(auto, unfolding(model::specs::Links::set_link))]
fn set_link(ls: [Link; 16], t: &[u8]) -> [Link; 16]
    ensures { result ≡ set_link ls t.now }
{
    encoding::with_element(ls, encoding::index_of(encoding::at(t, 1)), link_in(t))
}

// The links after every triple.
pub fn set_links(ls: [Link; 16], d: &[u8]) -> [Link; 16]
    ensures { result ≡ foldl set_link ls (chunks 3 d.now) }
{
    d.chunks_exact(3).fold(ls, set_link)
}
