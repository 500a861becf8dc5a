// The numbers of subscribers and of their mailboxes.
ghost use Rattle.std.specs.Prelude.{◌≡◌};
ghost use Rattle.bank_steps.specs.Mailboxes.{is_no_mailbox, mailbox_of};

use message::limits::SUBSCRIBERS;

// Whether this is no number of a mailbox, nor of a subscriber.
pub fn is_no_mailbox(number: u64) -> bool
    ensures { result ≡ is_no_mailbox number }
{
    !(1..=SUBSCRIBERS).contains(&number)
}

// The place of a mailbox among the mailboxes, by its number.
pub fn mailbox_of(number: u64) -> usize
    ensures { result ≡ mailbox_of number }
{
    number.saturating_sub(1) as usize
}
