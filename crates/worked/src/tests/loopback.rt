// A connection over loopback: no clause can say what a socket carries.
ghost use Rattle.std.specs.Prelude.{◌≡◌, IfOk, is_some, true};

use super::otherwise::{Otherwise, expect};
use super::registry::empty;
use reg_base::Moment;
use reg_outside::{Accepted, ListClock, Listener};
use reg_serve::{Ended, serve_connection};
use reg_service::Next;
use reg_tcp::TcpPort;
use std::alloc::{AllocError, Global};
use std::io::{self, Eprint, Read, Write};
use std::net::{Ipv4Addr, Net, Shutdown, SocketAddr, SocketAddrV4, TcpStream};

/// A folder and a group are made, and the group's members asked for.
const MESSAGES: &[u8] = b"POST /requests HTTP/1.1\r\n\
Host: x\r\n\
X-Registry-Caller: g:isa/GrouperSystem\r\n\
Content-Length: 34\r\n\
\r\n\
{\"op\":\"folder.add\",\"folder\":\"app\"}\
POST /requests HTTP/1.1\r\n\
Host: x\r\n\
X-Registry-Caller: g:isa/GrouperSystem\r\n\
Content-Length: 36\r\n\
\r\n\
{\"op\":\"group.add\",\"group\":\"app:vpn\"}\
GET /groups/app%3Avpn/members HTTP/1.1\r\n\
Host: x\r\n\
X-Registry-Caller: g:isa/GrouperSystem\r\n\
\r\n";

const RESPONSES: &[u8] = b"HTTP/1.1 200 OK\r\n\
Content-Type: application/json\r\n\
Content-Length: 23\r\n\
\r\n\
{\"number\":1,\"ok\":true}\n\
HTTP/1.1 200 OK\r\n\
Content-Type: application/json\r\n\
Content-Length: 23\r\n\
\r\n\
{\"number\":2,\"ok\":true}\n\
HTTP/1.1 200 OK\r\n\
Content-Type: application/json\r\n\
Content-Length: 25\r\n\
\r\n\
{\"members\":[],\"ok\":true}\n";

/// Listens on the first of some ports that is free.
fn listen_on<R: Net + Eprint>(net: &mut TcpPort<R>) -> Result<u16, Otherwise>
    ensures { IfOk result (λ port. is_some net.new.port ≡ true) }
{
    for port in 49_400..49_500u16 {
        if net.listen(port).is_ok() {
            return Ok(port);
        }
    }
    Err(Otherwise::NotSo("one of the ports is free"))
}

/// A client that has sent all of the messages, and nothing more.
fn client_of(rt: &HostRuntime, port: u16) -> io::Result<TcpStream> {
    let address = SocketAddr::V4(SocketAddrV4::new(Ipv4Addr::LOCALHOST, port));
    let mut client = TcpStream::connect(rt, address)?;
    client.write_all(MESSAGES)?;
    client.shutdown(Shutdown::Write)?;
    Ok(client)
}

/// A clock that stands at moment 0.
fn clock(alloc: Global) -> Result<ListClock, AllocError> {
    Ok(ListClock::new(vec![in alloc; Moment::start()]?))
}

/// Accepts the connection that waits, serves it, and gives it back.
fn serve<R: Net + Eprint>(alloc: Global, net: &mut TcpPort<R>) -> Result<(), Otherwise>
    requires { is_some net.old.port ≡ true }
{
    let mut clock = clock(alloc)?;
    let service = empty(alloc)?;
    let Ok(Some(Accepted { number, mut conn })) = net.accept() else {
        return Err(Otherwise::NotSo("a connection comes"));
    };
    let (ended, next) = serve_connection(alloc, service, &mut conn, &mut clock);
    let is_given_back = net.give_back(Accepted { number, conn }, &[]).is_ok();
    let goes_on = matches!(&next, Next::Go(_));
    drop(next);
    expect(is_given_back, "the connection is given back")?;
    expect(
        ended == Ended::Silent,
        "the connection ends since its bytes do",
    )?;
    expect(goes_on, "the registry goes on")
}

/// Row by row: the port is listened on, the messages are sent and the client's side is closed, and
/// only then the connection is accepted, served and given back.
pub fn play(rt: &HostRuntime) -> Result<(), Otherwise> {
    let mut net = TcpPort::new(rt, rt.alloc());
    let port = listen_on(&mut net)?;
    let Ok(mut client) = client_of(rt, port) else {
        return Err(Otherwise::NotSo("a client sends its messages"));
    };
    serve(rt.alloc(), &mut net)?;
    let mut found = Vec::new(rt.alloc());
    let is_read = client.read_to_end(&mut found).is_ok();
    expect(is_read, "the client reads to the end")?;
    expect(
        found.as_slice() == RESPONSES,
        "it reads the three responses",
    )
}
