//! The addresses in the headers of a mail, and who sent it.
ghost use Rattle.std.specs.Prelude.{◌≡◌, ◌++◌, map, option_map, OnOk, Ok};
ghost use Rattle.mailparse.specs.Outcome.{AnswersOrMemory};
ghost use Rattle.mail_address.specs.Addresses.{addresses};
ghost use Rattle.mail_address.specs.AddressViews.{element_view, mailbox_view};
ghost use Rattle.mail_address.specs.Headers.{addresses_of, only_mailbox, sender_of};

use crate::list::{Address, AddressList, Mailbox, read_addresses};
use mailparse::{MailHeaderMap, MailParseError};
use std::alloc::{AllocError, Global};

/// Returns the elements of all headers with this name, as `read_addresses` reads them, in the order
/// of the mail (RFC 5322, section 3.6.3).
///
/// The ASCII case of the name is ignored. The offset of an element is counted in the value of its
/// own header. Allocates the list, that of the headers, and the members of groups.
///
/// # Errors
///
/// `MailParseError::Memory` if memory runs out.
///
/// # Examples
///
/// ```rust
/// use mail_address::addresses_of;
/// use mailparse::parse_mail;
///
/// let mail = parse_mail(alloc, b"To: Ann <ann@example.org>, bob@example.org\nTo: all:;\n\n")?;
/// let list = addresses_of(alloc, &mail.headers, "To")?;
/// assert_eq!(rt; list.len(), 3);
/// ```
#[tactic(auto, unfolding(crate::specs::Headers::addresses_of))]
pub fn addresses_of<'m, M: MailHeaderMap>(
    alloc: Global,
    headers: &'m M,
    name: &str,
) -> Result<AddressList<'m>, MailParseError>
    ensures { AnswersOrMemory (λ list. map element_view list.items) result
        (Ok (addresses_of name.now (M.present headers.now))) }
{
    let mut list = Vec::new(alloc);
    for header in headers.get_all_headers(alloc, name)? {
        push_addresses(alloc, &mut list, header.get_value_raw())?;
    }
    Ok(list)
}

/// Appends the elements of a value.
fn push_addresses<'a>(
    alloc: Global,
    list: &mut AddressList<'a>,
    raw: &'a [u8],
) -> Result<(), AllocError>
    ensures { OnOk result (map element_view list.new.items
        ≡ map element_view list.old.items ++ addresses raw.now) }
{
    let mut found = read_addresses(alloc, raw)?;
    list.append(&mut found)?;
    Ok(())
}

/// Returns the sender of a mail (RFC 5322, section 3.6.2): the mailbox in its `Sender`, or else the
/// one in its `From`, or `None`.
///
/// The headers of such a name count only if they contain one mailbox and nothing else. So a mail
/// that is `From` several mailboxes, or from a group, and that has no `Sender`, has no sender.
/// Allocates as `addresses_of` does.
///
/// # Errors
///
/// `MailParseError::Memory` if memory runs out.
///
/// # Examples
///
/// ```rust
/// use mail_address::sender_of;
/// use mailparse::parse_mail;
///
/// let raw = b"From: ann@example.org, bob@example.org\nSender: bob@example.org\n\n";
/// let mail = parse_mail(alloc, raw)?;
/// let sender = sender_of(alloc, &mail.headers)?.ok_or("no sender")?;
/// assert_eq!(rt; sender.get_address(alloc)?.as_str(), "bob@example.org");
/// ```
#[tactic(auto, unfolding(crate::specs::Headers::sender_of))]
pub fn sender_of<'m, M: MailHeaderMap>(
    alloc: Global,
    headers: &'m M,
) -> Result<Option<Mailbox<'m>>, MailParseError>
    ensures { AnswersOrMemory (λ found. option_map mailbox_view found) result
        (Ok (sender_of (M.present headers.now))) }
{
    let sender = addresses_of(alloc, headers, "Sender")?;
    if let Some(mailbox) = only_mailbox(&sender) {
        return Ok(Some(mailbox));
    }
    let from = addresses_of(alloc, headers, "From")?;
    Ok(only_mailbox(&from))
}

/// Returns the only element, if it is a mailbox.
pub(crate) fn only_mailbox<'a>(list: &AddressList<'a>) -> Option<Mailbox<'a>>
    ensures { option_map mailbox_view result ≡ only_mailbox (map element_view list.now.items) }
{
    let [only] = list.as_slice() else {
        return None;
    };
    match only {
        Address::Mailbox(mailbox) => Some(*mailbox),
        _ => None,
    }
}
