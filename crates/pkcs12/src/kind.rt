// The kinds of safes and bags. The identifiers of the kinds of bag, and the decision which kind a
// bagId's body names, belong to the type (Rule 3.14).
ghost use Rattle.std.specs.Prelude.{◌≡◌};
ghost use Rattle.pkcs12.specs.Identifiers.{kind_of};
ghost use Rattle.pkcs12.specs.Report.{kind_report};

// `None` is the kind of an empty row.
#[derive(Clone, Copy)]
pub enum SafeKind {
    None,
    Plain,
    Encrypted,
}

// `None` is the kind of an empty row, and of an identifier that is of no kind.
#[derive(Clone, Copy)]
pub enum BagKind {
    None,
    Key,
    ShroudedKey,
    Certificate,
    Crl,
    Secret,
    Nested,
}

impl BagKind {
    pub const KEY: [u8; 11] = *b"\x2A\x86\x48\x86\xF7\x0D\x01\x0C\x0A\x01\x01";

    pub const SHROUDED_KEY: [u8; 11] = *b"\x2A\x86\x48\x86\xF7\x0D\x01\x0C\x0A\x01\x02";

    pub const CERTIFICATE: [u8; 11] = *b"\x2A\x86\x48\x86\xF7\x0D\x01\x0C\x0A\x01\x03";

    pub const CRL: [u8; 11] = *b"\x2A\x86\x48\x86\xF7\x0D\x01\x0C\x0A\x01\x04";

    pub const SECRET: [u8; 11] = *b"\x2A\x86\x48\x86\xF7\x0D\x01\x0C\x0A\x01\x05";

    pub const NESTED: [u8; 11] = *b"\x2A\x86\x48\x86\xF7\x0D\x01\x0C\x0A\x01\x06";

    // The kind that a bagId's body names, `None` if it names no kind.
    pub fn of(body: &[u8]) -> BagKind
        ensures value { result ≡ kind_of body.now }
        ensures report { kind_report result ≡ kind_report (kind_of body.now) }
    {
        if range::same(body, &BagKind::KEY) {
            return BagKind::Key;
        }
        if range::same(body, &BagKind::SHROUDED_KEY) {
            return BagKind::ShroudedKey;
        }
        if range::same(body, &BagKind::CERTIFICATE) {
            return BagKind::Certificate;
        }
        if range::same(body, &BagKind::CRL) {
            return BagKind::Crl;
        }
        if range::same(body, &BagKind::SECRET) {
            return BagKind::Secret;
        }
        if range::same(body, &BagKind::NESTED) {
            return BagKind::Nested;
        }
        BagKind::None
    }
}
