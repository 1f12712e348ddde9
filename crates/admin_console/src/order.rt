//! What a line of the console says.

ghost use Rattle.std.specs.Prelude.{◌≡◌, ◌≤◌, length};
ghost use Rattle.okws_base.specs.declared.limit.TheConstants.{MOST_SERVICES, MOST_TEMPLATES};
ghost use Rattle.plain_text.specs.Words.{words, one_word, two_words};
ghost use Rattle.admin_console.specs.Orders.{order_of, alone_order, relaunch_order, publish_order, sized_order, OrderFits};

use crate::rule::Rule;
use okws_base::limit::LONGEST_TEMPLATE;
use okws_plan::configuration::Config;
use okws_plan::naming::{service_of, template_of};
use plain_text::decimals::number_of;
use plain_text::words::{first_word, one_word, two_words};

/// Bytes that a command's line may have, without its end.
pub const LONGEST_COMMAND: usize = 256;

/// What a line says.
#[derive(Clone, Copy)]
pub enum Order {
    /// Publish the bytes that follow, so many, as an edition of the template.
    Publish { template: u16, size: u32 },
    /// Relaunch the service.
    Relaunch(u16),
    /// Tell how the site stands.
    Status,
    /// The console ends.
    End,
    /// The run is to end once what has begun is answered, and the console ends.
    Stop,
    /// The line breaks this rule, and so many bytes that follow are dropped.
    Refused { rule: Rule, size: u32 },
}

/// A refusal of a line that no bytes follow.
fn refused(rule: Rule) -> Order
    ensures { result ≡ Order.Refused rule 0 }
{
    Order::Refused { rule, size: 0 }
}

fn read_alone(order: Order, rest: &[u8]) -> Order
    ensures { result ≡ alone_order order (words rest.now) }
{
    match first_word(rest) {
        None => order,
        Some(_) => refused(Rule::NoCommand),
    }
}

fn read_relaunch(config: &Config, rest: &[u8]) -> Order
    requires { length config.now.services ≤ MOST_SERVICES }
    ensures is { result ≡ relaunch_order config.now (one_word (words rest.now)) }
    ensures fits { OrderFits config.now result }
{
    let Some(name) = one_word(rest) else {
        return refused(Rule::NoCommand);
    };
    match service_of(config, name) {
        None => refused(Rule::Undeclared),
        Some(service) => Order::Relaunch(service),
    }
}

fn read_sized(config: &Config, name: &[u8], size: u32) -> Order
    requires { length config.now.templates ≤ MOST_TEMPLATES }
    ensures is { result ≡ sized_order config.now name.now size }
    ensures fits { OrderFits config.now result }
{
    let Some(template) = template_of(config, name) else {
        return Order::Refused {
            rule: Rule::Undeclared,
            size,
        };
    };
    if size as usize <= LONGEST_TEMPLATE {
        Order::Publish { template, size }
    } else {
        Order::Refused {
            rule: Rule::TooLong,
            size,
        }
    }
}

fn read_publish(config: &Config, rest: &[u8]) -> Order
    requires { length config.now.templates ≤ MOST_TEMPLATES }
    ensures is { result ≡ publish_order config.now (two_words (words rest.now)) }
    ensures fits { OrderFits config.now result }
{
    let Some((name, digits)) = two_words(rest) else {
        return refused(Rule::NoCommand);
    };
    match number_of(digits) {
        None => refused(Rule::NoCommand),
        Some(size) => read_sized(config, name, size),
    }
}

/// What a line without its end says under a configuration: `publish NAME LENGTH`, where LENGTH has 1 to
/// 9 decimal digits and so many bytes follow the line, `relaunch SERVICE`, `status`, `stop` or `end`, the
/// words parted by spaces or tabs. Anything else, and a line over 256 bytes, is no command.
#[tactic(auto, unfolding(crate::specs::Orders::order_of))]
pub fn order_of(config: &Config, line: &[u8]) -> Order
    requires services { length config.now.services ≤ MOST_SERVICES }
    requires templates { length config.now.templates ≤ MOST_TEMPLATES }
    ensures is { result ≡ order_of config.now line.now }
    ensures fits { OrderFits config.now result }
{
    if line.len() > LONGEST_COMMAND {
        return refused(Rule::NoCommand);
    }
    let Some((word, rest)) = first_word(line) else {
        return refused(Rule::NoCommand);
    };
    if word == b"publish".as_slice() {
        read_publish(config, rest)
    } else if word == b"relaunch".as_slice() {
        read_relaunch(config, rest)
    } else if word == b"status".as_slice() {
        read_alone(Order::Status, rest)
    } else if word == b"end".as_slice() {
        read_alone(Order::End, rest)
    } else if word == b"stop".as_slice() {
        read_alone(Order::Stop, rest)
    } else {
        refused(Rule::NoCommand)
    }
}
