//! How C begins a configuration.
//!
//! Each export hands its pointers to a function that tests them for null, and then makes the call. What it answers is
//! defined in `specs/Lent.antt`, and said for C in `include/gozdrit.h`, with its refusals.
ghost use Rattle.std.specs.Prelude.{◌≡◌, ℕ, List, Option};
ghost use Rattle.std.specs.Borrow.{sem};
ghost use Rattle.gozdrit.specs.Lying.{sized_lies_at};
ghost use Rattle.gozdrit.specs.Sizes.{HasRest};
ghost use Rattle.gozdrit.specs.declared.sizes.TheConstants.{RECEIVER_CONFIG, SENDER_CONFIG};
ghost use Rattle.gozdrit.specs.contracts.config.ReceiverFields.{the_row as receiver_config_row};
ghost use Rattle.gozdrit.specs.declared.config.ReceiverFields.{ReceiverFields};
ghost use Rattle.gozdrit.specs.contracts.config.SenderFields.{the_row as sender_config_row};
ghost use Rattle.gozdrit.specs.declared.config.SenderFields.{SenderFields};
ghost use Rattle.gozdrit.specs.Lent.{ReceiverDefaultsFor, SenderDefaultsFor};

use crate::code::{BAD_SIZE, NULL, OK};
use crate::config::{ReceiverFields, SenderFields};
use crate::defaults::{receiver_defaults, sender_defaults};
use crate::rest::blank;
use crate::sized::LentSized;
use crate::sizes::{RECEIVER_CONFIG, SENDER_CONFIG};

/// Fills a configuration of a receiver with what serves where nothing else is known. Its struct has so many octets.
#[unsafe(no_mangle)]
pub unsafe extern "C" fn gozdrit_receiver_defaults(config: *mut ReceiverFields, size: usize) -> i32
    ghost before: { Option ReceiverFields × List ℕ }
    requires rest { HasRest (λ fields. size) RECEIVER_CONFIG before.0 before.1 }
    requires* lies { sem 𝓛 (sized_lies_at receiver_config_row config before.0 before.1) }
    ensures* { ∃ₛ (λ (after : Option ReceiverFields × List ℕ).
        sem 𝓛 (sized_lies_at receiver_config_row config after.0 after.1)
        ∗ ⌜ ReceiverDefaultsFor size before.0 before.1 result after.0 after.1 ⌝) }
{
    receiver_defaults_lent(LentSized { at: config }, size).0
}

fn receiver_defaults_lent(
    mut config: LentSized<ReceiverFields>,
    size: usize,
) -> (i32, LentSized<ReceiverFields>)
    requires { HasRest (λ fields. size) RECEIVER_CONFIG config.value config.rest }
    ensures { (result.1.at ≡ config.at)
        × ReceiverDefaultsFor size config.value config.rest result.0 result.1.value result.1.rest }
{
    if config.is_null() {
        return (NULL, config);
    }
    if size < RECEIVER_CONFIG {
        return (BAD_SIZE, config);
    }
    blank(&mut config, size, RECEIVER_CONFIG);
    *config.get() = receiver_defaults(size);
    (OK, config)
}

/// Fills a configuration of a sender with what serves where nothing else is known. Its struct has so many octets.
#[unsafe(no_mangle)]
pub unsafe extern "C" fn gozdrit_sender_defaults(config: *mut SenderFields, size: usize) -> i32
    ghost before: { Option SenderFields × List ℕ }
    requires rest { HasRest (λ fields. size) SENDER_CONFIG before.0 before.1 }
    requires* lies { sem 𝓛 (sized_lies_at sender_config_row config before.0 before.1) }
    ensures* { ∃ₛ (λ (after : Option SenderFields × List ℕ).
        sem 𝓛 (sized_lies_at sender_config_row config after.0 after.1)
        ∗ ⌜ SenderDefaultsFor size before.0 before.1 result after.0 after.1 ⌝) }
{
    sender_defaults_lent(LentSized { at: config }, size).0
}

fn sender_defaults_lent(
    mut config: LentSized<SenderFields>,
    size: usize,
) -> (i32, LentSized<SenderFields>)
    requires { HasRest (λ fields. size) SENDER_CONFIG config.value config.rest }
    ensures { (result.1.at ≡ config.at)
        × SenderDefaultsFor size config.value config.rest result.0 result.1.value result.1.rest }
{
    if config.is_null() {
        return (NULL, config);
    }
    if size < SENDER_CONFIG {
        return (BAD_SIZE, config);
    }
    blank(&mut config, size, SENDER_CONFIG);
    *config.get() = sender_defaults(size);
    (OK, config)
}
