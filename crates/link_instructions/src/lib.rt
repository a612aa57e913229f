// What Spinel's instructions come to for the links: judged, applied, read.
#![tactic(auto)]

ghost use Rattle.std.specs.Prelude.{◌≡◌};
ghost use Rattle.model.specs.State.{with_links};
ghost use Rattle.model.specs.Refusals.{on_part, reading, judged};
ghost use Rattle.model.specs.Counters.{list_read};
ghost use Rattle.model.specs.Links.{set_links, link_shown};
ghost use Rattle.outcomes.specs.Parts.{outcome, served_of};

use model::{Module, Refusal};
use outcomes::Served;

// 40H
#[tactic(auto, using(crate::proofs::Links::links_refused, crate::proofs::Links::links_done))]
pub fn set_links(m: Module, d: &[u8]) -> Result<Served, Refusal>
    ensures { outcome m result ≡ served_of (judged m (on_part (with_links m) (set_links m.settings.thermostats d.now m.settings.links))) }
{
    link_effects::links_refusal(&m.settings.thermostats, d)?;
    let ls = link_effects::set_links(m.settings.links, d);
    Ok(Served::without_data(outcomes::with_links(m, ls)))
}

// 41H
#[tactic(auto, using(outcomes::proofs::Laws::told_law))]
pub fn read_links(m: Module, d: &[u8]) -> Result<Served, Refusal>
    ensures { outcome m result ≡ served_of (judged m (reading m (list_read (link_shown m.settings.links) d.now))) }
{
    outcomes::told(m, spinel_reads::read_links(m.settings.links, d))
}
