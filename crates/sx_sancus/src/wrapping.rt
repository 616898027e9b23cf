//! The instructions that wrap and unwrap a body.

ghost use Rattle.std.specs.Prelude.{◌≡◌, ◌≤◌, length};
ghost use Rattle.sx_tag.specs.Wrap.{wrapped};
ghost use Rattle.spec_machine.specs.ModuleRows.{exchanged, wrap, unwrap};
ghost use Rattle.sx_sancus.specs.Told.{RunsRow};

use crate::access::{read_block, write};
use crate::event::SancusEvent;
use crate::inputs::{own_key, read_inputs};
use crate::text::Text;
use spec_machine::Exchange;
use sx_bus::Bus;
use sx_executor::Executor;
use sx_rules::{Section, Violation};
use sx_tag::Tag;

/// A header and a plain body, as the node keeps them.
fn exchanged(regs: &[u16; 16], header: &Text, body: &Text) -> Exchange
    ensures { result ≡ exchanged regs.now header.now body.now }
{
    Exchange {
        ad: header.padded(),
        ad_len: header.count(),
        body: body.padded(),
        body_len: body.count(),
        own_key: own_key(regs),
    }
}

/// The cipher of a body, and the tag.
fn sealed<T: Tag>(tag: &T, key: &[u8; 16], header: &Text, body: &Text) -> (Text, [u8; 16])
    requires header { length header.now ≤ 32 }
    requires body { length body.now ≤ 32 }
    ensures cipher { result.0 ≡ (wrapped T.mac key.now header.now body.now).cipher }
    ensures tag { result.1 ≡ (wrapped T.mac key.now header.now body.now).tag }
    ensures count { length result.0 ≡ length body.now }
{
    let mut cipher = [0; 32];
    let mac = sx_tag::wrap(tag, key, header.as_slice(), body.as_slice(), &mut cipher);
    (Text::front(&cipher, usize::from(body.count())), mac)
}

/// Wraps a header and a body as code of the module `own`: the cipher is written, then the tag. The
/// error is the first violation: `Range`, `Device`, `Read` or `Write`.
pub fn wrap<B: Bus, T: Tag>(
    executor: &mut Executor<B>,
    own: &Section,
    tag: &mut T,
    exchange: &mut Exchange,
) -> Result<SancusEvent, Violation>
    ensures { RunsRow (λ g. wrap T.mac g own.now) executor.old exchange.old
        result executor.new exchange.new }
{
    let inputs = read_inputs(executor, own)?;
    tag.keep(&inputs.key);
    let (cipher, mac) = sealed(tag, &inputs.key, &inputs.header, &inputs.text);
    write(executor, inputs.output, cipher.as_slice())?;
    write(executor, inputs.tag, &mac)?;
    *exchange = exchanged(executor.regs(), &inputs.header, &inputs.text);
    executor.conclude(1);
    Ok(SancusEvent::Wrapped)
}

/// Unwraps a cipher as code of the module `own`. A wrong tag opens nothing, and nothing is then
/// written; the body's place must be open to writes with a wrong tag, too. The error is the first
/// violation: `Range`, `Device`, `Read` or `Write`.
pub fn unwrap<B: Bus, T: Tag>(
    executor: &mut Executor<B>,
    own: &Section,
    tag: &mut T,
    exchange: &mut Exchange,
) -> Result<SancusEvent, Violation>
    ensures { RunsRow (λ g. unwrap T.mac g own.now) executor.old exchange.old result executor.new
        exchange.new }
{
    let inputs = read_inputs(executor, own)?;
    let mac = read_block(executor, inputs.tag)?;
    executor.writable(inputs.output)?;
    tag.keep(&inputs.key);
    let header = inputs.header.as_slice();
    let Some(body) = sx_tag::unwrap(tag, &inputs.key, header, inputs.text.as_slice(), &mac) else {
        executor.conclude(0);
        return Ok(SancusEvent::Quiet);
    };
    let body = Text::front(&body, usize::from(inputs.text.count()));
    write(executor, inputs.output, body.as_slice())?;
    *exchange = exchanged(executor.regs(), &inputs.header, &body);
    executor.conclude(1);
    Ok(SancusEvent::Unwrapped)
}
