//! Laws of all lists of addresses. Each function does nothing; its contract is the law.
ghost use Rattle.std.specs.Prelude.{[], ◌≡◌, ◌+◌, ◌∷◌, ◌++◌, List, None, Some, length, map, suc, true, ℕ};
ghost use Rattle.mail_codec.specs.Ascii.{backslash, comma, space};
ghost use Rattle.mail_codec.specs.Charset.{Charsets, four_charsets};
ghost use Rattle.mail_codec.specs.Tables.{charsets_with};
ghost use Rattle.mailparse.specs.Header.{Header};
ghost use Rattle.mail_codec.specs.declared.charset.tables.SingleByteTable.{SingleByteTable};
ghost use Rattle.mail_address.specs.Encode.{KnowUtf8};
ghost use Rattle.mail_address.specs.Accepted.{IsAccepted};
ghost use Rattle.mail_address.specs.Addresses.{EachElement, addresses, element_at, element_len};
ghost use Rattle.mail_address.specs.Addresses.{Group, group, is_separator, items, single};
ghost use Rattle.mail_address.specs.Brackets.{IsAddressIn, IsInBrackets, before_open};
ghost use Rattle.mail_address.specs.Brackets.{in_brackets};
ghost use Rattle.mail_address.specs.Enclosed.{IsEnclosed, IsInAngles};
ghost use Rattle.mail_address.specs.Grammar.{IsByGrammar, IsMailbox};
ghost use Rattle.mail_address.specs.Groups.{GroupsFollow, IsGroup};
ghost use Rattle.mail_address.specs.Headers.{addresses_of};
ghost use Rattle.mail_address.specs.Lenient.{IsComplete, has_brackets, lenient_addresses};
ghost use Rattle.mail_address.specs.Lenient.{lenient_addresses_of, lenient_mailbox, refined};
ghost use Rattle.mail_address.specs.Lenient.{with_comment};
ghost use Rattle.mail_address.specs.Mailbox.{Parts, mailbox_of};
ghost use Rattle.mail_address.specs.Names.{AreNameWords, bracketed, named};
ghost use Rattle.mail_address.specs.Order.{AreInOrder, MakeUp};
ghost use Rattle.mail_address.specs.Safe.{IsSafe};
ghost use Rattle.mail_address.specs.Text.{phrase_text, quoted_text};
ghost use Rattle.mail_address.specs.Tokens.{is_in, run};
ghost use Rattle.mail_address.specs.Writer.{HaveTexts, are_writable, element_shows};
ghost use Rattle.mail_address.specs.Writer.{element_shown_for, written_list};
ghost use Rattle.mail_address.specs.declared.writer.NewAddress.{NewAddress};
ghost use Rattle.mail_address.specs.declared.tokens.Kind.TheVariants.{Angle};
ghost use Rattle.mail_address.specs.declared.tokens.Span.{Span};

/// The elements are disjoint and in order, and the text has the bytes of each at its offset.
///
/// # Examples
///
/// ```rust
/// mail_address::laws::elements_are_in_order();
/// ```
pub fn elements_are_in_order()
    ensures { (raw : List ℕ) → AreInOrder 0 raw (addresses raw) }
{}

/// The text consists of the elements and what is around them. Before an element there are only
/// separators, each with nothing before it but whitespace and comments. An element is followed
/// directly by a separator or the end, and a group by anything.
///
/// # Examples
///
/// ```rust
/// mail_address::laws::elements_make_up_the_text();
/// ```
pub fn elements_make_up_the_text()
    ensures { (raw : List ℕ) → MakeUp 0 raw (addresses raw) }
{}

/// Nothing within quotes, comments, domain literals and angle brackets is a delimiter, however
/// comments nest and whatever a backslash quotes: the search for a delimiter continues after them.
/// Outside of them it continues after the byte that a backslash quotes.
///
/// The delimiters are those of each run of tokens that may contain angle brackets: the separators
/// of elements and of members, an `@`, and the colon of a group and of a route.
///
/// # Examples
///
/// ```rust
/// mail_address::laws::nothing_enclosed_separates();
/// ```
pub fn nothing_enclosed_separates()
    ensures enclosed { (span : Span) (text rest : List ℕ) → is_in span Angle ≡ true →
        IsEnclosed text → run span (text ++ rest) ≡ length text + run span rest }
    ensures quoted { (span : Span) (b : ℕ) (rest : List ℕ) → is_in span Angle ≡ true →
        run span (backslash ∷ b ∷ rest) ≡ 2 + run span rest }
{}

/// No display name forges an address. Take a name of quoted strings and atoms, such as encoded
/// words, with a space after each, and then anything in angle brackets. That is one element,
/// whatever the name shows: the mailbox of the address in the brackets, if they contain one. After
/// a comma the list goes on. Every text is such a name as a quoted string, which shows it.
///
/// # Examples
///
/// ```rust
/// mail_address::laws::names_forge_nothing();
/// ```
pub fn names_forge_nothing()
    ensures alone { (start : ℕ) (name inner : List ℕ) → AreNameWords name → IsInAngles inner →
        items element_at element_len start (name ++ bracketed inner) ≡ named start name inner ∷ [] }
    ensures first { (start : ℕ) (name inner rest : List ℕ) → AreNameWords name → IsInAngles inner →
        items element_at element_len start ((name ++ bracketed inner) ++ comma ∷ rest)
        ≡ named start name inner
        ∷ items element_at element_len (start + suc (length (name ++ bracketed inner))) rest }
    ensures quoted { (text : List ℕ) → AreNameWords (quoted_text text ++ space ∷ []) }
    ensures shown { (text : List ℕ) → phrase_text (quoted_text text ++ space ∷ []) ≡ text }
{}

/// An element of a list, or a member of a group, is read as a mailbox exactly if its text is one by
/// a grammar of bytes (RFC 5322, sections 3.4 and 4.4). A text is at most one mailbox.
///
/// The grammar has mailboxes with and without a name, routes, dots in names, comments and folding
/// whitespace, quoted strings and domain literals.
///
/// # Examples
///
/// ```rust
/// mail_address::laws::mailboxes_are_those_of_the_grammar();
/// ```
pub fn mailboxes_are_those_of_the_grammar()
    ensures elements { (raw : List ℕ) → EachElement IsByGrammar (addresses raw) }
    ensures one { (text : List ℕ) (m n : Parts) → IsMailbox text m → IsMailbox text n → m ≡ n }
{}

/// A mailbox of that grammar is an element, if a comma, a semicolon or the end follows it, and the
/// list goes on after the separator.
///
/// # Examples
///
/// ```rust
/// mail_address::laws::separators_separate();
/// ```
pub fn separators_separate()
    ensures first { (start : ℕ) (text rest : List ℕ) (separator : ℕ) (m : Parts) →
        IsMailbox text m → is_separator separator ≡ true →
        items element_at element_len start (text ++ separator ∷ rest)
        ≡ single (record { start = start; text = text; mailbox = Some m })
        ∷ items element_at element_len (start + suc (length text)) rest }
    ensures alone { (start : ℕ) (text : List ℕ) (m : Parts) → IsMailbox text m →
        items element_at element_len start text
        ≡ single (record { start = start; text = text; mailbox = Some m }) ∷ [] }
{}

/// A group whose members are mailboxes is read exactly if its text is one by a grammar of bytes
/// (RFC 5322, sections 3.4 and 4.4; RFC 6854), and it has the members that the grammar gives it.
/// The list goes on after it, and after the separator if one follows.
///
/// # Examples
///
/// ```rust
/// mail_address::laws::groups_are_those_of_the_grammar();
/// ```
pub fn groups_are_those_of_the_grammar()
    ensures elements { (raw : List ℕ) → GroupsFollow (addresses raw) }
    ensures first { (start : ℕ) (text rest : List ℕ) (separator : ℕ) (g : Group) →
        IsGroup start text g → is_separator separator ≡ true →
        items element_at element_len start (text ++ separator ∷ rest)
        ≡ group g ∷ items element_at element_len (start + suc (length text)) rest }
    ensures alone { (start : ℕ) (text : List ℕ) (g : Group) → IsGroup start text g →
        items element_at element_len start text ≡ group g ∷ [] }
{}

/// No address that is read contains a control character: no byte below 0x20, and no 0x7F. So it may
/// be written into a header, or into a command of SMTP, and ends no line there.
///
/// # Examples
///
/// ```rust
/// mail_address::laws::addresses_contain_no_control();
/// ```
pub fn addresses_contain_no_control()
    ensures value { (raw : List ℕ) → EachElement IsSafe (addresses raw) }
    ensures headers { (name : List ℕ) (headers : List Header) →
        EachElement IsSafe (addresses_of name headers) }
{}

/// Every address that is read can be written: `write_addresses` accepts the local part and the
/// domain that `Mailbox::get_local_part` and `Mailbox::get_domain` return. If they are UTF-8, it
/// writes the address as `Mailbox::get_address` returns it.
///
/// # Examples
///
/// ```rust
/// mail_address::laws::addresses_that_are_read_can_be_written();
/// ```
pub fn addresses_that_are_read_can_be_written()
    ensures value { (raw : List ℕ) → EachElement IsAccepted (addresses raw) }
    ensures headers { (name : List ℕ) (headers : List Header) →
        EachElement IsAccepted (addresses_of name headers) }
{}

/// What `write_addresses` writes reads back: as many elements, in order, with the same names,
/// whatever they contain, and the same addresses in canonical form, so without whitespace in a
/// domain literal. This holds in all charsets that know UTF-8 by its label as the four do, so also
/// in those with the tables of a caller, and in `AllCharsets` of `mail_charsets`, whose law
/// `the_four_come_first` says so.
///
/// # Examples
///
/// ```rust
/// mail_address::laws::written_addresses_read_back();
/// ```
pub fn written_addresses_read_back()
    ensures shown { (known : Charsets) (list : List NewAddress) → KnowUtf8 known →
        HaveTexts list → are_writable list ≡ true →
        map (element_shows known) (addresses (written_list list)) ≡ map element_shown_for list }
    ensures four { KnowUtf8 four_charsets }
    ensures tables { (tables : List SingleByteTable) → KnowUtf8 (charsets_with tables) }
{}

/// The lenient reading agrees with the grammar. A mailbox by the grammar keeps its address, and its
/// name if it has one. Where each element and each member of a group is a mailbox, and none of them
/// has a comment instead of a name, both readings are the same.
///
/// # Examples
///
/// ```rust
/// mail_address::laws::lenient_reading_agrees_with_the_grammar();
/// ```
pub fn lenient_reading_agrees_with_the_grammar()
    ensures mailboxes { (raw : List ℕ) (start : ℕ) (text : List ℕ) (m : Parts) →
        refined raw (single (record { start = start; text = text; mailbox = Some m }))
        ≡ single (record { start = start; text = text; mailbox = Some (with_comment text m) }) }
    ensures local_parts { (text : List ℕ) (m : Parts) →
        (with_comment text m).local_part ≡ m.local_part }
    ensures domains { (text : List ℕ) (m : Parts) → (with_comment text m).domain ≡ m.domain }
    ensures same { (raw : List ℕ) → EachElement IsComplete (addresses raw) →
        lenient_addresses raw ≡ addresses raw }
{}

/// The elements of the lenient reading are disjoint and in order, and the text has the bytes of
/// each at its offset.
///
/// # Examples
///
/// ```rust
/// mail_address::laws::lenient_elements_are_in_order();
/// ```
pub fn lenient_elements_are_in_order()
    ensures { (raw : List ℕ) → AreInOrder 0 raw (lenient_addresses raw) }
{}

/// In the lenient reading, an address in angle brackets counts and nothing before it. Take a text
/// that is no mailbox by the grammar, also without a comment at its end that nothing closes. If
/// there is a pair of angle brackets before that comment, the address of the text, if it has one, is
/// a part of the bytes within the first pair: the local part, an `@` and the domain. So it is in
/// each element and each member of a group. Angle brackets in quotes and comments are no such pair.
///
/// # Examples
///
/// ```rust
/// mail_address::laws::lenient_brackets_count();
/// ```
pub fn lenient_brackets_count()
    ensures text { (text : List ℕ) (m : Parts) → lenient_mailbox text ≡ Some m →
        mailbox_of (before_open text) ≡ None → has_brackets (before_open text) ≡ true →
        IsAddressIn (in_brackets (before_open text)) m }
    ensures elements { (raw : List ℕ) → EachElement IsInBrackets (lenient_addresses raw) }
{}

/// No address of the lenient reading contains a control character, as none of the grammar does.
///
/// # Examples
///
/// ```rust
/// mail_address::laws::lenient_addresses_contain_no_control();
/// ```
pub fn lenient_addresses_contain_no_control()
    ensures value { (raw : List ℕ) → EachElement IsSafe (lenient_addresses raw) }
    ensures headers { (name : List ℕ) (headers : List Header) →
        EachElement IsSafe (lenient_addresses_of name headers) }
{}

/// Every address of the lenient reading can be written, as every one of the grammar can.
///
/// # Examples
///
/// ```rust
/// mail_address::laws::lenient_addresses_can_be_written();
/// ```
pub fn lenient_addresses_can_be_written()
    ensures value { (raw : List ℕ) → EachElement IsAccepted (lenient_addresses raw) }
    ensures headers { (name : List ℕ) (headers : List Header) →
        EachElement IsAccepted (lenient_addresses_of name headers) }
{}
