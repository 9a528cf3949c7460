// The setting calls, as far as they concern what is set.
ghost use Rattle.std.specs.Prelude.{◌≡◌, ℕ, ◌-◌, not, IfOk, None, slice_index_or};
ghost use Rattle.std.specs.Option.{option_map};
ghost use Rattle.model.specs.Refusals.{refused};
ghost use Rattle.board.specs.Sets.{no_share, is_unset_at, takes_no_lane, open_checks};
ghost use Rattle.board.specs.Boards.{settings_of, slots_set, set_with};
ghost use Rattle.model.specs.Calls.{setting_refusal, opens, lane};
ghost use Rattle.model.specs.Calls.{first as first_setting};

use crate::board::Board;
use crate::share::Share;
use model::Refusal;
use patterns::setting::LaneSetting;
use patterns::tick::Tick;

impl Board {
    // How many of the places no share and no vertex has.
    fn free(&self, places: u8) -> usize
        ensures { result ≡ places - slots_set self.now }
    {
        (places as usize).saturating_sub(self.used)
    }

    // The share of a domain, if it is open.
    pub(crate) fn share(&self, domain: usize) -> Option<Share>
        ensures { option_map (λ s. s.slots) result ≡ slice_index_or self.now.shares domain None }
    {
        self.shares.get(domain).copied().flatten()
    }

    pub fn is_open(&self, domain: usize) -> bool
        ensures { result ≡ not (no_share (slice_index_or self.now.shares domain None)) }
    {
        self.share(domain).is_some()
    }

    // The first tick's number.
    pub fn first(&self) -> u64
        ensures { result ≡ self.now.first }
    {
        self.first
    }

    // The domain is neither open nor protected.
    pub fn is_unset(&self, domain: usize) -> bool
        ensures { result ≡ is_unset_at self.now.shares self.now.lanes domain }
    {
        self.share(domain).is_none() && self.lanes.lane_count(domain) == 0
    }

    // The domain is above 7 or open.
    fn takes_no_lane(&self, domain: u64) -> bool
        ensures { result ≡ takes_no_lane self.now.shares domain }
    {
        domain > 7 || self.share(domain as usize).is_some()
    }

    // The share that opens a domain, unless that is refused.
    fn opening_share(&self, domain: u64, share: u64, places: u8) -> Result<Share, Refusal>
        ensures answer { refused result ≡ open_checks self.now.shares self.now.lanes (places - slots_set self.now) domain share }
        ensures share { IfOk result (λ s. s.slots ≡ share) }
    {
        if domain > 7 || !self.is_unset(domain as usize) {
            return Err(Refusal::DomainTaken);
        }
        let chosen = Share::new(share).ok_or(Refusal::BadShare)?;
        if share > self.free(places) as u64 {
            return Err(Refusal::NoPlaces);
        }
        Ok(chosen)
    }

    // Opens a domain with a share, unless it is refused.
    pub fn open(&mut self, domain: u64, share: u64, places: u8) -> Result<(), Refusal>
        ensures answer { refused result ≡ setting_refusal places (settings_of self.old) (opens domain share) }
        ensures after { self.new ≡ set_with places (opens domain share) self.old }
    {
        self.known();
        let chosen = self.opening_share(domain, share, places)?;
        self.shares[domain as usize] = Some(chosen);
        self.used += share as usize;
        Ok(())
    }

    // Sets the first tick's number, unless it is refused.
    pub fn set_first(&mut self, number: u64) -> Result<(), Refusal>
        ensures answer { (places : ℕ) → refused result ≡ setting_refusal places (settings_of self.old) (first_setting number) }
        ensures after { (places : ℕ) → self.new ≡ set_with places (first_setting number) self.old }
    {
        let tick = Tick::new(number).ok_or(Refusal::LastTick)?;
        self.first = tick.number;
        Ok(())
    }

    // Adds a lane to a domain, unless it is refused.
    pub fn add_lane(&mut self, domain: u64, setting: LaneSetting, places: u8) -> Result<(), Refusal>
        ensures answer { refused result ≡ setting_refusal places (settings_of self.old) (lane domain setting.entry.vertices.now setting.entry.edges.now setting.entry.rest) }
        ensures after { self.new ≡ set_with places (lane domain setting.entry.vertices.now setting.entry.edges.now setting.entry.rest) self.old }
    {
        self.known();
        if self.takes_no_lane(domain) {
            return Err(Refusal::DomainTaken);
        }
        let free = self.free(places);
        self.lanes.add(domain as usize, setting, free)?;
        self.used += setting.vertices.len();
        Ok(())
    }
}
