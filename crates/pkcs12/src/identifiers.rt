// The identifiers of content types, and of the type of an X.509 certificate, by their bodies
// (Rule 3.23).
pub const DATA: [u8; 9] = *b"\x2A\x86\x48\x86\xF7\x0D\x01\x07\x01";

pub const SIGNED_DATA: [u8; 9] = *b"\x2A\x86\x48\x86\xF7\x0D\x01\x07\x02";

pub const ENVELOPED_DATA: [u8; 9] = *b"\x2A\x86\x48\x86\xF7\x0D\x01\x07\x03";

pub const ENCRYPTED_DATA: [u8; 9] = *b"\x2A\x86\x48\x86\xF7\x0D\x01\x07\x06";

pub const X509_CERTIFICATE: [u8; 10] = *b"\x2A\x86\x48\x86\xF7\x0D\x01\x09\x16\x01";
