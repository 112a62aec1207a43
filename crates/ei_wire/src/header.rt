//! The header of a message.

ghost use Rattle.std.specs.Prelude.{◌≡◌, length};
ghost use Rattle.ei_spec.specs.Message.{header, le4, le8, of_le4, of_le8};
ghost use Rattle.ei_wire.specs.Header.{header_of, header_bytes};

/// The sixteen bytes before the arguments of a message.
///
/// Any numbers may stand here: which lengths are lawful is no matter of the header.
#[derive(Clone, Copy, Debug, PartialEq, Eq, Hash)]
pub struct Header {
    /// The id of the object that the message goes to.
    pub object_id: u64,
    /// The number of bytes of the whole message, these sixteen included.
    pub length: u32,
    /// Which message of the object's interface it is.
    pub opcode: u32,
}

impl Header {
    /// The header that the bytes spell.
    #[tactic(auto, using(crate::proofs::HeaderLaws::last_part))]
    pub fn parse(bytes: [u8; 16]) -> Header
        ensures value { result ≡ header_of bytes }
        ensures back { header_bytes result ≡ bytes }
    {
        let (id, rest) = bytes.split_at(8);
        let (length, opcode) = rest.split_at(4);
        Header {
            object_id: long_at(id),
            length: word_at(length),
            opcode: word_at(opcode),
        }
    }

    /// The bytes of the header, each number with its least byte first.
    #[tactic(auto, using(crate::proofs::HeaderLaws::header_again))]
    pub fn as_bytes(&self) -> [u8; 16]
        ensures bytes { result ≡ header_bytes self.now }
        ensures back { header_of result ≡ self.now }
    {
        bytes_of(self.object_id, self.length, self.opcode)
    }
}

#[tactic(auto, unfolding(ei_spec::specs::Message::header, ei_spec::specs::Message::le4, ei_spec::specs::Message::le8))]
fn bytes_of(object_id: u64, length: u32, opcode: u32) -> [u8; 16]
    ensures { result ≡ header object_id length opcode }
{
    let mut bytes = [0; 16];
    bytes[..8].copy_from_slice(&object_id.to_le_bytes());
    bytes[8..12].copy_from_slice(&length.to_le_bytes());
    bytes[12..].copy_from_slice(&opcode.to_le_bytes());
    bytes
}

#[tactic(auto, using(crate::proofs::HeaderLaws::word_back), unfolding(ei_spec::specs::Message::of_le4))]
fn word_at(bytes: &[u8]) -> u32
    requires { length bytes.now ≡ 4 }
    ensures value { result ≡ of_le4 bytes.now }
    ensures back { le4 result ≡ bytes.now }
{
    u32::from_le_bytes([bytes[0], bytes[1], bytes[2], bytes[3]])
}

#[tactic(auto, using(crate::proofs::HeaderLaws::long_back), unfolding(ei_spec::specs::Message::of_le8))]
fn long_at(bytes: &[u8]) -> u64
    requires { length bytes.now ≡ 8 }
    ensures value { result ≡ of_le8 bytes.now }
    ensures back { le8 result ≡ bytes.now }
{
    u64::from_le_bytes([
        bytes[0], bytes[1], bytes[2], bytes[3], bytes[4], bytes[5], bytes[6], bytes[7],
    ])
}
