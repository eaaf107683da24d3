// One interrupt's record and every transition of interrupt.rs, by value: the record goes in as `self` and comes back. The two that
// a device calls, `set_level` and `pulse`, change it where the caller keeps it.
// Flags are joined by `&` and `|`, where the Rust has `&&` and `||`: the same value, and one test where a branch would make two.
ghost use Rattle.std.specs.Prelude.{◌≡◌};
ghost use Rattle.interrupt.specs.Record.{new_record, starting_record, set_enabled, set_pending, set_active, state_of, set_state, has_delivery_state, clear_delivery_state, mark_inflight, synchronize_inflight, cancel_inflight, finish_inflight, deactivate_inflight, set_priority, set_trigger, set_cpu_target_mask, set_owner, set_level, pulse, complete, deliverable, held};

use crate::types::{GicVcpuId, IntId, InterruptState, Priority, TriggerMode};

#[derive(Clone, Copy)]
pub struct InterruptRecord {
    pub enabled: bool,
    pub pending: bool,
    pub active: bool,
    pub inflight: bool,
    pub redelivery_pending: bool,
    pub line_asserted: bool,
    pub priority: Priority,
    pub trigger: TriggerMode,
    // The vCPUs that an SPI is offered to; `None` until it is first written.
    pub cpu_target_mask: Option<u8>,
    // Who serves an interrupt in flight. The Rust keeps it in delivery slots.
    pub owner: Option<GicVcpuId>,
}

// What `synchronize_inflight` gives: the record, and the merged state.
#[derive(Clone, Copy)]
pub struct Synchronized {
    pub after: InterruptRecord,
    pub merged: InterruptState,
}

impl InterruptRecord {
    #[tactic(auto, unfolding(crate::specs::Record::new_record))]
    pub fn new(intid: IntId, trigger: TriggerMode) -> Self
        ensures { result ≡ new_record intid trigger }
    {
        Self {
            enabled: intid.is_sgi(),
            pending: false,
            active: false,
            inflight: false,
            redelivery_pending: false,
            line_asserted: false,
            priority: Priority::DEFAULT,
            trigger,
            cpu_target_mask: None,
            owner: None,
        }
    }

    // What an interrupt has at setup.
    #[tactic(auto, unfolding(crate::specs::Record::starting_record))]
    pub fn starting(intid: IntId) -> Self
        ensures { result ≡ starting_record intid }
    {
        Self::new(intid, TriggerMode::starting(intid))
    }

    #[tactic(auto, unfolding(crate::specs::Record::set_enabled))]
    pub fn set_enabled(mut self, enabled: bool) -> Self
        ensures { result ≡ set_enabled self enabled }
    {
        self.enabled = enabled;
        if enabled & self.line_asserted {
            self.pending = true;
        }
        self
    }

    #[tactic(auto, unfolding(crate::specs::Record::set_pending, crate::specs::Record::held))]
    pub fn set_pending(mut self, pending: bool) -> Self
        ensures { result ≡ set_pending self pending }
    {
        if pending {
            self.pending = true;
        } else {
            // Where interrupt.rs would silence a held line, request Four leaves the bit as it stands.
            self.pending &= self.held();
            self.redelivery_pending = false;
        }
        self
    }

    #[tactic(auto, unfolding(crate::specs::Record::set_active))]
    pub fn set_active(mut self, active: bool) -> Self
        ensures { result ≡ set_active self active }
    {
        self.active = active;
        self
    }

    #[tactic(auto, unfolding(crate::specs::Record::state_of))]
    pub fn state(self) -> InterruptState
        ensures { result ≡ state_of self }
    {
        match (self.active, self.pending) {
            (true, true) => InterruptState::ActivePending,
            (true, false) => InterruptState::Active,
            (false, true) => InterruptState::Pending,
            (false, false) => InterruptState::Inactive,
        }
    }

    #[tactic(auto, unfolding(crate::specs::Record::set_state))]
    pub fn set_state(mut self, state: InterruptState) -> Self
        ensures { result ≡ set_state self state }
    {
        self.pending = state.pending();
        self.active = state.active();
        self
    }

    #[tactic(auto, unfolding(crate::specs::Record::has_delivery_state))]
    pub fn has_delivery_state(self) -> bool
        ensures { result ≡ has_delivery_state self }
    {
        self.pending | self.active | self.inflight | self.redelivery_pending
    }

    #[tactic(auto, unfolding(crate::specs::Record::clear_delivery_state))]
    pub fn clear_delivery_state(mut self) -> Self
        ensures { result ≡ clear_delivery_state self }
    {
        self.pending = false;
        self.active = false;
        self.inflight = false;
        self.redelivery_pending = false;
        self.line_asserted = false;
        self
    }

    #[tactic(auto, unfolding(crate::specs::Record::mark_inflight))]
    pub fn mark_inflight(mut self) -> Self
        ensures { result ≡ mark_inflight self }
    {
        self.inflight = true;
        self
    }

    #[tactic(auto, unfolding(crate::specs::Record::synchronize_inflight, crate::specs::Record::set_state, crate::specs::Record::state_of, crate::specs::Record::note_merged, crate::specs::Record::note_spent))]
    pub fn synchronize_inflight(self, state: InterruptState) -> Synchronized
        ensures { result ≡ synchronize_inflight self state }
    {
        let mut after = self.set_state(state);
        after.pending |= after.redelivery_pending;
        let merged = after.state();
        if after.pending & after.active {
            // The delivery that merged stands for the note: kept, it would be handed out once more.
            after.redelivery_pending = false;
        }
        Synchronized { after, merged }
    }

    #[tactic(auto, unfolding(crate::specs::Record::cancel_inflight))]
    pub fn cancel_inflight(mut self) -> Self
        ensures { result ≡ cancel_inflight self }
    {
        self.pending |= self.redelivery_pending;
        self.inflight = false;
        self.redelivery_pending = false;
        self
    }

    // A level interrupt with its line asserted.
    #[tactic(auto, unfolding(crate::specs::Record::held))]
    fn held(self) -> bool
        ensures { result ≡ held self }
    {
        self.trigger.is_level() & self.line_asserted
    }

    #[tactic(auto, unfolding(crate::specs::Record::finish_inflight, crate::specs::Record::deactivate_inflight))]
    pub fn finish_inflight(self) -> Self
        ensures { result ≡ finish_inflight self }
    {
        self.deactivate_inflight(false)
    }

    #[tactic(auto, unfolding(crate::specs::Record::deactivate_inflight, crate::specs::Record::held))]
    pub fn deactivate_inflight(mut self, pending_in_delivery: bool) -> Self
        ensures { result ≡ deactivate_inflight self pending_in_delivery }
    {
        self.inflight = false;
        self.active = false;
        self.pending = pending_in_delivery | self.redelivery_pending | self.held();
        self.redelivery_pending = false;
        self
    }

    #[tactic(auto, unfolding(crate::specs::Record::set_priority))]
    pub fn set_priority(mut self, priority: Priority) -> Self
        ensures { result ≡ set_priority self priority }
    {
        self.priority = priority;
        self
    }

    #[tactic(auto, unfolding(crate::specs::Record::set_trigger))]
    pub fn set_trigger(mut self, trigger: TriggerMode) -> Self
        ensures { result ≡ set_trigger self trigger }
    {
        self.trigger = trigger;
        self
    }

    #[tactic(auto, unfolding(crate::specs::Record::set_cpu_target_mask))]
    pub fn set_cpu_target_mask(mut self, mask: u8) -> Self
        ensures { result ≡ set_cpu_target_mask self mask }
    {
        self.cpu_target_mask = Some(mask);
        self
    }

    #[tactic(auto, unfolding(crate::specs::Record::set_owner))]
    pub fn set_owner(mut self, owner: Option<GicVcpuId>) -> Self
        ensures { result ≡ set_owner self owner }
    {
        self.owner = owner;
        self
    }

    // `set_level` by value.
    #[tactic(auto, unfolding(crate::specs::Record::set_level))]
    fn leveled(mut self, asserted: bool) -> Self
        ensures { result ≡ set_level self asserted }
    {
        let rising_edge = asserted & !self.line_asserted;
        self.line_asserted = asserted;
        if asserted {
            self.pending = true;
            if self.inflight & self.active & rising_edge {
                self.redelivery_pending = true;
            }
        } else if self.trigger.is_level() & !self.active {
            self.pending = false;
            self.redelivery_pending = false;
        }
        self
    }

    // `pulse` by value.
    #[tactic(auto, unfolding(crate::specs::Record::pulse))]
    fn pulsed(mut self) -> Self
        ensures { result ≡ pulse self }
    {
        self.pending = true;
        // One more edge is kept while a delivery is in flight.
        if self.inflight {
            self.redelivery_pending = true;
        }
        self
    }

    pub fn set_level(&mut self, asserted: bool)
        ensures { self.new ≡ set_level self.old asserted }
    {
        *self = (*self).leveled(asserted);
    }

    pub fn pulse(&mut self)
        ensures { self.new ≡ pulse self.old }
    {
        *self = (*self).pulsed();
    }

    #[tactic(auto, unfolding(crate::specs::Record::complete, crate::specs::Record::held))]
    pub fn complete(mut self) -> Self
        ensures { result ≡ complete self }
    {
        self.active = false;
        if self.held() {
            self.pending = true;
        }
        self
    }

    #[tactic(auto, unfolding(crate::specs::Record::deliverable))]
    pub fn deliverable(self) -> bool
        ensures { result ≡ deliverable self }
    {
        self.enabled & self.pending
    }
}

// `set_level` and `pulse` on a record of the function's own: whoever calls these lends nothing.
pub fn after_level(mut record: InterruptRecord, asserted: bool) -> InterruptRecord
    ensures { result ≡ set_level «record» asserted }
{
    record.set_level(asserted);
    record
}

pub fn after_pulse(mut record: InterruptRecord) -> InterruptRecord
    ensures { result ≡ pulse «record» }
{
    record.pulse();
    record
}
