// The byte registers: one loop reads 1, 2 or 4 bytes of any of them, one writes them.
ghost use Rattle.std.specs.Prelude.{◌≡◌, ◌+◌, ◌*◌, ◌^◌, ◌<◌};
ghost use Rattle.register.specs.declared.ranges.ByteRegister.TheVariants.{Ipriorityr};
ghost use Rattle.word.specs.Fields.{field_at};
ghost use Rattle.distributor.specs.Bytes.{read_priority, write_priority, read_byte, write_byte, read_bytes, write_bytes, ByteAt, BytesAt};

use interrupt::{GicVcpuId, IntId, Priority};
use register::ByteRegister;
use sgi::write_sgi_sources;
use state::Shape;
use state::words::{put_record, record, sgi_sources};
use targets::{read_target, write_target};

fn read_priority(words: &[u32], shape: Shape, vcpu: GicVcpuId, intid: IntId) -> u8
    requires { ByteAt shape Ipriorityr vcpu.0 intid.0 words.now }
    ensures { result ≡ read_priority shape vcpu.0 words.now intid.0 }
{
    if shape.limit <= intid.0 {
        return 0;
    }
    record(words, shape, vcpu, intid).priority.0
}

fn write_priority(words: &mut [u32], shape: Shape, vcpu: GicVcpuId, intid: IntId, byte: u8)
    requires { ByteAt shape Ipriorityr vcpu.0 intid.0 words.old }
    ensures { words.new ≡ write_priority shape vcpu.0 intid.0 byte words.old }
{
    if shape.limit <= intid.0 {
        return;
    }
    let changed = record(words, shape, vcpu, intid).set_priority(Priority::new(byte));
    put_record(words, shape, vcpu, intid, changed);
}

fn read_byte(
    words: &[u32],
    shape: Shape,
    vcpu: GicVcpuId,
    register: ByteRegister,
    intid: IntId,
) -> u8
    requires { ByteAt shape register vcpu.0 intid.0 words.now }
    ensures { result ≡ read_byte shape register vcpu.0 words.now intid.0 }
{
    match register {
        ByteRegister::Ipriorityr => read_priority(words, shape, vcpu, intid),
        ByteRegister::Itargetsr => read_target(words, shape, vcpu, intid),
        ByteRegister::Cpendsgir | ByteRegister::Spendsgir => {
            sgi_sources(words, shape, vcpu, intid)
        }
    }
}

fn write_byte(
    words: &mut [u32],
    shape: Shape,
    vcpu: GicVcpuId,
    register: ByteRegister,
    intid: IntId,
    byte: u8,
)
    requires { ByteAt shape register vcpu.0 intid.0 words.old }
    ensures { words.new ≡ write_byte shape register vcpu.0 intid.0 byte words.old }
{
    match register {
        ByteRegister::Ipriorityr => write_priority(words, shape, vcpu, intid, byte),
        ByteRegister::Itargetsr => write_target(words, shape, vcpu, intid, byte),
        ByteRegister::Cpendsgir => write_sgi_sources(words, shape, vcpu, intid, byte, false),
        ByteRegister::Spendsgir => write_sgi_sources(words, shape, vcpu, intid, byte, true),
    }
}

fn byte_of(value: u32, i: u32) -> u8
    requires { i < 4 }
    ensures { result ≡ field_at 8 i value }
{
    ((value >> (8 * i)) % 256) as u8
}

fn byte_placed(byte: u8, i: u32) -> u32
    requires { i < 4 }
    ensures { result ≡ byte * 2 ^ (8 * i) }
{
    (byte as u32) << (8 * i)
}

// `count` bytes, the first number's lowest.
#[tactic(auto, unfolding(word::specs::Fields::gathered, crate::specs::Bytes::read_bytes))]
pub fn read_bytes(
    words: &[u32],
    shape: Shape,
    vcpu: GicVcpuId,
    register: ByteRegister,
    first: IntId,
    count: u32,
) -> u32
    requires { BytesAt shape register vcpu.0 first.0 count words.now }
    ensures { result ≡ read_bytes shape register vcpu.0 first.0 count words.now }
{
    let mut value: u32 = 0;
    for i in 0..count {
        let byte = read_byte(words, shape, vcpu, register, IntId(first.0 + i));
        value += byte_placed(byte, i);
    }
    value
}

#[tactic(auto, unfolding(state::specs::Loop::up_to, crate::specs::Bytes::write_bytes))]
pub fn write_bytes(
    words: &mut [u32],
    shape: Shape,
    vcpu: GicVcpuId,
    register: ByteRegister,
    first: IntId,
    count: u32,
    value: u32,
)
    requires { BytesAt shape register vcpu.0 first.0 count words.old }
    ensures { words.new ≡ write_bytes shape register vcpu.0 first.0 count value words.old }
{
    for i in 0..count {
        write_byte(
            words,
            shape,
            vcpu,
            register,
            IntId(first.0 + i),
            byte_of(value, i),
        );
    }
}
