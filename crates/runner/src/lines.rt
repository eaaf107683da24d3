// A line, the call that it asks for, and the text of the answer.
ghost use Rattle.std.specs.Prelude.{◌≡◌, ◌+◌, ◌≤◌, length};
ghost use Rattle.answer.specs.Answer.{outcome};
ghost use Rattle.script.specs.Text.{Puts};
ghost use Rattle.runner.specs.Runner.{outcome_printed, request_printed, line_answer, Prints};
ghost use Rattle.runner.specs.Feeding.{text_of};

use answer::{refusal_in, retired_in, value_in, wake_in};
use controller::{
    Answer, pulse, read_v2_cpu_interface, read_v2_distributor, set_level, setup,
    write_v2_cpu_interface, write_v2_distributor,
};
use script::{Request, Writer, parse_line};

fn put(writer: &mut Writer<'_>, answer: Answer)
    requires { writer.old.at + 30 ≤ length writer.old.out.now }
    ensures { Puts (text_of answer) writer.old writer.new }
{
    writer.put_answer(
        refusal_in(answer),
        value_in(answer),
        wake_in(answer),
        retired_in(answer),
    );
}

#[tactic(auto, unfolding(crate::specs::Runner::request_printed))]
fn answer_request(words: &mut [u32], request: Request) -> Answer
    ensures { outcome_printed (outcome result words.new) ≡ request_printed request words.old }
{
    match request {
        Request::Setup(n) => setup(words, n.count, n.limit),
        Request::ReadDistributor(d) => read_v2_distributor(words, d.vcpu, d.offset, d.width),
        Request::WriteDistributor(d) => write_v2_distributor(
            words, d.vcpu, d.offset, d.width, d.value,
        ),
        Request::ReadCpuInterface(c) => read_v2_cpu_interface(words, c.vcpu, c.offset, c.width),
        Request::WriteCpuInterface(c) => write_v2_cpu_interface(
            words, c.vcpu, c.offset, c.width, c.value,
        ),
        Request::SetLevel(l) => set_level(words, l.vcpu, l.number, l.asserted),
        Request::Pulse(p) => pulse(words, p.vcpu, p.number),
    }
}

// An answer takes at most 30 bytes.
pub fn answer_line(words: &mut [u32], line: &[u8], writer: &mut Writer<'_>)
    requires { writer.old.at + 30 ≤ length writer.old.out.now }
    ensures prints { Prints (line_answer line.now words.old) writer.old.at words.new writer.old.out.now writer.new.out.now writer.new.at }
    ensures same_reference { writer.new.out.ghost_name ≡ writer.old.out.ghost_name }
{
    match parse_line(line) {
        Some(request) => put(writer, answer_request(words, request)),
        None => writer.put_unknown(),
    }
}
