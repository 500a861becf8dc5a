// A file goes into a mailbox.
ghost use Rattle.std.specs.Prelude.{Ok, ◌≡◌, ◌||◌, ◌<◌, ◌≤◌, eqb, ltb, length};
ghost use Rattle.message.specs.Limits.{file_bytes, subscribers};
ghost use Rattle.message.specs.Verdicts.{decide};
ghost use Rattle.bank_state.specs.Limits.{store_bytes};
ghost use Rattle.bank_rows.specs.State.{bank_of, Laid};
ghost use Rattle.bank.specs.Mailbox.{file_refusal_number, file_refusals, carry_out_file};
ghost use Rattle.bank.specs.Lent.{lent_file_call_of, kept_file, lent_file_call};

use bank_rows::numbers::{file_length_of, set_file_length};
use bank_sound::sound::is_sound;
use bank_state::limits::STORE_BYTES;
use bank_state::store::append;
use bank_steps::mailboxes::is_no_mailbox;
use message::limits::FILE_BYTES;
use number_table::table::{MAILBOX_FULL, NO_MAILBOX, WRONG_FILE, WRONG_LENGTH};

// Why no file is put into a mailbox: document 01's numbers 1 to 4.
#[derive(Clone, Copy, Debug, PartialEq, Eq)]
pub enum FileRefusal {
    WrongLength,
    NoMailbox,
    WrongFile,
    MailboxFull,
}

impl From<FileRefusal> for u64 {
    ghost from_gives = { λ r n. n ≡ file_refusal_number r };

    fn from(refusal: FileRefusal) -> u64 {
        match refusal {
            FileRefusal::WrongLength => WRONG_LENGTH,
            FileRefusal::NoMailbox => NO_MAILBOX,
            FileRefusal::WrongFile => WRONG_FILE,
            FileRefusal::MailboxFull => MAILBOX_FULL,
        }
    }
}

// Whether this is no length of a file.
fn is_wrong_file(length: usize) -> bool
    ensures { result ≡ (eqb «length» 0 || ltb file_bytes «length») }
{
    length == 0 || FILE_BYTES < length
}

// What the host's call gets, checked in document 01's order: a line for each row of `file_refusals`.
#[tactic(auto, unfolding(crate::specs::Mailbox::file_refusals))]
fn judge_file(rows: &[u64], mailbox: u64, file: &[u8], mailboxes: &[u8]) -> Result<(), FileRefusal>
    requires { Laid rows.now }
    ensures { result ≡ decide (file_refusals (bank_of rows.now) mailbox
        file.now mailboxes.now) (Ok tt) }
{
    if mailboxes.len() != STORE_BYTES {
        return Err(FileRefusal::WrongLength);
    }
    if is_no_mailbox(mailbox) {
        return Err(FileRefusal::NoMailbox);
    }
    if is_wrong_file(file.len()) {
        return Err(FileRefusal::WrongFile);
    }
    if file_length_of(rows, mailbox) != 0 {
        return Err(FileRefusal::MailboxFull);
    }
    Ok(())
}

// The file is written into the mailbox.
fn store_file(rows: &mut [u64], mailbox: u64, file: &[u8], mailboxes: &mut [u8])
    requires { Laid rows.old × (0 < mailbox) × (mailbox ≤ subscribers)
        × (length file.now ≤ file_bytes) × (length mailboxes.old ≡ store_bytes) }
    ensures { lent_file_call_of (Ok tt) rows.new mailboxes.new ≡ kept_file rows.old
        (carry_out_file (Ok tt) (bank_of rows.old) mailbox file.now mailboxes.old) }
{
    let m = (mailbox - 1) as usize;
    append(mailboxes, m * FILE_BYTES, file);
    set_file_length(rows, m, file.len() as u64);
}

// A file goes into a mailbox, with the bank's rows and the mailboxes' store lent.
pub fn put_file(
    rows: &mut [u64],
    mailbox: u64,
    file: &[u8],
    mailboxes: &mut [u8],
) -> Result<(), FileRefusal>
    ensures { lent_file_call_of result rows.new mailboxes.new
        ≡ lent_file_call rows.old mailbox file.now mailboxes.old }
{
    if !is_sound(rows) {
        return Err(FileRefusal::WrongLength);
    }
    judge_file(rows, mailbox, file, mailboxes)?;
    store_file(rows, mailbox, file, mailboxes);
    Ok(())
}
