// Writing an image and reading one.
ghost use Rattle.std.specs.Prelude.{◌≡◌, [], ◌+◌, ◌≤◌, ◌<◌, length, get_or, take, drop};
ghost use Rattle.octets.specs.Bytes.{overwrite};
ghost use Rattle.image.specs.Items.{image_items, image_sizes, bytes_in, parts_in, stores_in};
ghost use Rattle.image.specs.Walk.{rest};
ghost use Rattle.image.specs.Image.{pack, numbers_of, stores_of, fits, constants_right, stores, lengths};
ghost use Rattle.image.specs.Image.{image_refusal_number, is_image, wrote, written, took, taken, took_numbers, numbers_taken};

use crate::numbers::{fits_width, number_at, put_number};
use crate::table::{FIELD_COUNT, image_sizes, row_at};
use crate::walk::{Cursor, Entry, start};
use number_table::table::{NOT_ADMITTED, WRONG_LENGTH};
use octets::bytes::copy;

// Why an image is not written or read: "number 1", a lent length is wrong, or "number 9", out of form or not of the list.
#[derive(Clone, Copy, Debug, PartialEq, Eq)]
pub enum ImageRefusal {
    WrongLength,
    NotAdmitted,
}

impl From<ImageRefusal> for u64 {
    ghost from_gives = { λ r n. n ≡ image_refusal_number r };

    fn from(refusal: ImageRefusal) -> u64 {
        match refusal {
            ImageRefusal::WrongLength => WRONG_LENGTH,
            ImageRefusal::NotAdmitted => NOT_ADMITTED,
        }
    }
}

// Whether each number has no more bytes than its part.
fn fits_all(from: Cursor, numbers: &[u64]) -> bool
    requires { parts_in (rest from) ≤ length numbers.now }
    ensures { result ≡ fits (rest from) numbers.now }
{
    let mut k = 0;
    for entry in from {
        if let Entry::Part(w) = entry {
            if !fits_width(w, numbers[k]) {
                return false;
            }
            k += 1;
        }
    }
    true
}

// Writes the n-th of both stores over the buffer from a place on. A number, since `pack` counts the stores.
fn put_store(n: usize, orders: &[u8], mailboxes: &[u8], buffer: &mut [u8], at: usize)
    requires { (n < 2) × (at + length (get_or (stores orders.now mailboxes.now) n []) ≤ length buffer.old) }
    ensures { buffer.new
        ≡ overwrite buffer.old at (get_or (stores orders.now mailboxes.now) n []) }
{
    copy(buffer, at, if n == 0 { orders } else { mailboxes });
}

// Writes constants, numbers and stores over the buffer from its front on.
fn put_all(from: Cursor, numbers: &[u64], orders: &[u8], mailboxes: &[u8], buffer: &mut [u8])
    requires { (parts_in (rest from) ≤ length numbers.now)
        × (stores_in (rest from) ≡ lengths (stores orders.now mailboxes.now))
        × (bytes_in (rest from) ≤ length buffer.old) }
    ensures { buffer.new ≡ overwrite buffer.old 0
        (pack (rest from) numbers.now (stores orders.now mailboxes.now)) }
{
    let mut k = 0;
    let mut n = 0;
    let mut at = 0;
    for entry in from {
        match entry {
            Entry::Head(w, h) => {
                put_number(buffer, at, w, h);
                at += w;
            }
            Entry::Part(w) => {
                put_number(buffer, at, w, numbers[k]);
                at += w;
                k += 1;
            }
            Entry::Store(z) => {
                put_store(n, orders, mailboxes, buffer, at);
                at += z;
                n += 1;
            }
        }
    }
}

// Whether the heads of the fields stand where the table has them.
fn heads_right(image: &[u8]) -> bool
    requires { bytes_in image_items ≤ length image.now }
    ensures { result ≡ constants_right image_items image.now }
{
    let mut at = 0;
    for i in 0..FIELD_COUNT {
        let r = row_at(i);
        if number_at(image, at, r.width) != r.head {
            return false;
        }
        at += r.width + r.bytes;
    }
    true
}

// Whether the bytes are an image.
pub fn is_image(image: &[u8]) -> bool
    ensures { result ≡ is_image image.now }
{
    image.len() == image_sizes().image && heads_right(image)
}

// Reads the numbers of an image.
fn take_numbers(from: Cursor, image: &[u8], numbers: &mut [u64])
    requires { (bytes_in (rest from) ≤ length image.now) × (parts_in (rest from) ≡ length numbers.old) }
    ensures { numbers.new ≡ numbers_of (rest from) image.now }
{
    let mut at = 0;
    let mut k = 0;
    for entry in from {
        match entry {
            Entry::Head(w, _) => at += w,
            Entry::Part(w) => {
                numbers[k] = number_at(image, at, w);
                at += w;
                k += 1;
            }
            Entry::Store(z) => at += z,
        }
    }
}

// Reads a store from a place of the image on.
fn take_store(image: &[u8], at: usize, store: &mut [u8])
    requires { at + length store.old ≤ length image.now }
    ensures { store.new ≡ take (length store.old) (drop at image.now) }
{
    store.copy_from_slice(&image[at..at + store.len()]);
}

// Reads both stores of an image.
pub fn take_stores(image: &[u8], orders: &mut [u8], mailboxes: &mut [u8])
    requires { (length image.now ≡ image_sizes.image)
        × (length orders.old ≡ image_sizes.store) × (length mailboxes.old ≡ image_sizes.store) }
    ensures { stores orders.new mailboxes.new
        ≡ stores_of image_items image.now }
{
    let f = image_sizes();
    take_store(image, f.orders, orders);
    take_store(image, f.mailboxes, mailboxes);
}

// Writes the image of the numbers and the stores over the front of the buffer.
pub fn write(
    numbers: &[u64],
    orders: &[u8],
    mailboxes: &[u8],
    buffer: &mut [u8],
) -> Result<(), ImageRefusal>
    ensures { wrote result buffer.new ≡ written numbers.now orders.now
        mailboxes.now buffer.old }
{
    let f = image_sizes();
    if numbers.len() != f.numbers || orders.len() != f.store || mailboxes.len() != f.store {
        return Err(ImageRefusal::WrongLength);
    }
    if buffer.len() < f.image {
        return Err(ImageRefusal::WrongLength);
    }
    let from = start(0, f.fields);
    if !fits_all(from, numbers) {
        return Err(ImageRefusal::NotAdmitted);
    }
    put_all(from, numbers, orders, mailboxes, buffer);
    Ok(())
}

// Reads an image, which is all the bytes handed in, into the numbers and the stores.
pub fn read(
    image: &[u8],
    numbers: &mut [u64],
    orders: &mut [u8],
    mailboxes: &mut [u8],
) -> Result<(), ImageRefusal>
    ensures { took result numbers.new (stores orders.new mailboxes.new)
        ≡ taken image.now numbers.old orders.old mailboxes.old }
{
    let f = image_sizes();
    if numbers.len() != f.numbers || orders.len() != f.store || mailboxes.len() != f.store {
        return Err(ImageRefusal::WrongLength);
    }
    if !is_image(image) {
        return Err(ImageRefusal::NotAdmitted);
    }
    take_numbers(start(0, f.fields), image, numbers);
    take_stores(image, orders, mailboxes);
    Ok(())
}

// Reads the numbers of an image, which is all the bytes handed in, and not its stores.
pub fn read_numbers(image: &[u8], numbers: &mut [u64]) -> Result<(), ImageRefusal>
    ensures { took_numbers result numbers.new
        ≡ numbers_taken image.now numbers.old }
{
    let f = image_sizes();
    if numbers.len() != f.numbers {
        return Err(ImageRefusal::WrongLength);
    }
    if !is_image(image) {
        return Err(ImageRefusal::NotAdmitted);
    }
    take_numbers(start(0, f.fields), image, numbers);
    Ok(())
}
