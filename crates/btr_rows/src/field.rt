ghost use Rattle.std.specs.Prelude.{◌≡◌};
ghost use Rattle.btr_rows.specs.Field.{row_id_of};

use uuid::Uuid;

/// Reads the id of a stream: the text of a UUID in any of its forms (RFC 9562).
pub fn read_id(field: &[u8]) -> Option<u128>
    ensures { result ≡ row_id_of field.now }
{
    match Uuid::try_parse_ascii(field) {
        Ok(uuid) => Some(uuid.as_u128()),
        Err(_) => None,
    }
}
