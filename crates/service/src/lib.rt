// What a vCPU has under service: a stack of numbers and priorities, the newest running.
#![tactic(auto)]

ghost use Rattle.std.specs.Prelude.{◌≡◌, ◌<◌};
ghost use Rattle.state.specs.Layout.{stack_capacity};
ghost use Rattle.service.specs.Service.{depth_at, stack_at, running, is_newest, pushed, popped, dropped, Served};

use interrupt::{GicVcpuId, IntId, Priority};
use state::words::{
    clear_stack_entry, interface_value, put_interface_value, put_stack_entry, stack_entry,
};
use state::{Entry, InterfaceValue, Shape};

pub fn depth(words: &[u32], shape: Shape, vcpu: GicVcpuId) -> u32
    requires { Served shape vcpu.0 words.now }
    ensures { result ≡ depth_at shape vcpu.0 words.now }
{
    interface_value(words, shape, vcpu, InterfaceValue::Depth)
}

#[tactic(auto, using(crate::proofs::Stacks::stack_empty, crate::proofs::Stacks::stack_top))]
pub fn running_priority(words: &[u32], shape: Shape, vcpu: GicVcpuId) -> Priority
    requires { Served shape vcpu.0 words.now }
    ensures { result.0 ≡ running shape vcpu.0 words.now }
{
    let held = depth(words, shape, vcpu);
    if held == 0 {
        return Priority::IDLE;
    }
    stack_entry(words, shape, vcpu, (held - 1) as usize).priority
}

// The depth first, so that no entry ever stands past it.
#[tactic(auto, unfolding(crate::specs::Service::pushed))]
pub fn push_v2_active(words: &mut [u32], shape: Shape, vcpu: GicVcpuId, entry: Entry)
    requires { (Served shape vcpu.0 words.old) × (depth_at shape vcpu.0 words.old < stack_capacity) }
    ensures { words.new ≡ pushed shape vcpu.0 entry words.old }
{
    let held = depth(words, shape, vcpu);
    put_interface_value(words, shape, vcpu, InterfaceValue::Depth, held + 1);
    put_stack_entry(words, shape, vcpu, held as usize, entry);
}

#[tactic(auto, using(crate::proofs::Stacks::stack_empty, crate::proofs::Stacks::stack_top))]
fn is_newest(words: &[u32], shape: Shape, vcpu: GicVcpuId, intid: IntId) -> bool
    requires { Served shape vcpu.0 words.now }
    ensures { result ≡ is_newest intid.0 (stack_at shape vcpu.0 words.now) }
{
    let held = depth(words, shape, vcpu);
    if held == 0 {
        return false;
    }
    let newest = stack_entry(words, shape, vcpu, (held - 1) as usize);
    newest.intid.0 == intid.0
}

#[tactic(auto, unfolding(crate::specs::Service::popped))]
fn pop(words: &mut [u32], shape: Shape, vcpu: GicVcpuId)
    requires { (Served shape vcpu.0 words.old) × (0 < depth_at shape vcpu.0 words.old) }
    ensures { words.new ≡ popped shape vcpu.0 words.old }
{
    let left = depth(words, shape, vcpu) - 1;
    clear_stack_entry(words, shape, vcpu, left as usize);
    put_interface_value(words, shape, vcpu, InterfaceValue::Depth, left);
}

// Whether `intid` was the newest, and is dropped.
#[tactic(auto, using(crate::proofs::Stacks::newest_some), unfolding(crate::specs::Service::dropped))]
pub fn drop_v2_priority(words: &mut [u32], shape: Shape, vcpu: GicVcpuId, intid: IntId) -> bool
    requires { Served shape vcpu.0 words.old }
    ensures { (result ≡ is_newest intid.0 (stack_at shape vcpu.0 words.old)) × (words.new ≡ dropped shape vcpu.0 intid.0 words.old) }
{
    let newest = is_newest(words, shape, vcpu, intid);
    if newest {
        pop(words, shape, vcpu);
    }
    newest
}
