//! The laws of datagrams' bytes. The functions do nothing: what they ensure holds of all lists and datagrams.

ghost use Rattle.std.specs.Prelude.{◌≡◌, ℕ, List, ◌++◌, length};
ghost use Rattle.std.specs.List.{flat_map};
ghost use Rattle.std.specs.Int.{w16, to_be_bytes};
ghost use Rattle.records.specs.declared.Record.{Record as Signed};
ghost use Rattle.records.specs.Spelling.{record_bytes};
ghost use Rattle.datagram.specs.declared.Datagram.{Datagram as Sent};
ghost use Rattle.datagram.specs.declared.Datagram.TheVariants.{Records};
ghost use Rattle.datagram.specs.Spelling.{head_bytes, datagram_bytes, IsDatagram};

/// Bytes are one datagram at most.
pub fn one_datagram()
    ensures { (bytes : List ℕ) (d e : Sent) → IsDatagram bytes d → IsDatagram bytes e → d ≡ e }
{}

/// A head with the number of the records, and the records behind it, are their datagram.
pub fn records_follow_their_head()
    ensures { (from : ℕ) (records : List Signed)
        → (head_bytes 4 from ++ to_be_bytes w16 (length records)) ++ flat_map record_bytes records
        ≡ datagram_bytes (Records from records) }
{}
