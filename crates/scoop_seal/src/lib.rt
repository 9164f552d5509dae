//! Sealed datagrams: a link whose datagrams carry a tag that only a holder of the key can make.
//!
//! [`hmac`] is the code of RFC 2104 over SHA-256, and [`Key`] a key of 32 bytes. [`SealedLink`] puts 16 bytes of
//! the code after each datagram that it sends, and gives only datagrams with the right ones. [`Key::of_system`] binds
//! the key to a system's name and life. Nothing is secret except the key. No call takes memory.
//!
//! ```
//! let key = Key::new([5; 32]);
//! let mut link = SealedLink::new(TapeLink::new(alloc, 1)?, Some(key));
//! link.send(HANDLER, b"lock")?;
//! let (_, sealed) = link.inner().sent(0).ok_or("nothing sent")?;
//! assert_eq!(rt; sealed.len(), 4 + TAG_LEN);
//! // a holder of the key gets the bytes; a datagram without their tag is passed over
//! let mut tape = TapeLink::new(alloc, 0)?;
//! tape.feed(b"forged")?;
//! tape.feed(sealed)?;
//! let mut other = SealedLink::new(tape, Some(key));
//! let mut buffer = [0; BUFFER_LEN];
//! assert_eq!(rt; other.receive(&mut buffer), Ok(Some(4)));
//! assert!(rt; buffer.starts_with(b"lock"));
//! assert_eq!(rt; other.refused(), 1);
//! ```
#![tactic(auto)]

mod key;
mod mac;
mod sealed_link;
mod system_key;
mod tag;

pub use key::{Key, KeyError};
pub use mac::hmac;
pub use sealed_link::SealedLink;
pub use tag::{MAX_BYTES, TAG_LEN};
