// Whether a table is sound for the bytes that its ranges point into, and the size of the file that
// it makes.
#![tactic(auto)]

ghost use Rattle.std.specs.Prelude.{◌≡◌};
ghost use Rattle.der.specs.Span.{Bytes};
ghost use Rattle.sound.specs.Measured.{measured};
ghost use Rattle.sound.specs.Report.{measured_report};

mod checks;

use pkcs12::Table;

// The size of the file that a table makes of bytes, `None` if the table is not sound and makes no
// file. A size past that of the longest file is returned as `encode::size::PAST`.
pub fn measure(table: Table, bytes: &[u8]) -> Option<usize>
    ensures value { result ≡ measured table bytes.now }
    ensures report { measured_report result ≡ measured_report (measured table bytes.now) }
    ensures bytes { Bytes bytes.now }
{
    if !checks::rules(table, bytes) {
        return None;
    }
    let all = sizes::rows::all_safes(table, bytes);
    if all.safe != table.safe_count {
        return None;
    }
    if all.bag != table.bag_count {
        return None;
    }
    if all.attribute != table.attribute_count {
        return None;
    }
    let mac = sizes::mac(bytes, table.mac);
    let body = sizes::pfx(all.size, mac);
    Some(encode::size::element(body))
}
