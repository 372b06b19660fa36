//! The page with a room.

/// The page with a room, which connects to where it came from: `examples/room.html`, of which `tests/serve` looks that
/// it is this one.
pub const PAGE: &str = r##"<!doctype html>
<html lang="en">
<meta charset="utf-8">
<meta name="viewport" content="width=device-width, initial-scale=1">
<link rel="icon" href="data:image/svg+xml,<svg xmlns='http://www.w3.org/2000/svg' viewBox='0 0 8 8'><circle cx='4' cy='4' r='4' fill='seagreen'/></svg>">
<title>Who is in the room</title>
<style>
  body { font: 16px/1.5 system-ui, sans-serif; max-width: 36rem; margin: 2rem auto; padding: 0 1rem; overflow-wrap: anywhere; }
  form { display: flex; flex-wrap: wrap; gap: .5rem; align-items: end; margin: .5rem 0; }
  label { flex: 1 1 10rem; min-width: 0; font-size: .875rem; color: #555; }
  input { display: block; box-sizing: border-box; width: 100%; font: inherit; font-size: 1rem; color: #000; padding: .3rem; }
  button { font: inherit; width: 7rem; }
  #state, time, .since { color: #666; }
  #people li.me { font-weight: bold; }
  #people .since, #people .status { font-weight: normal; }
  #people .status { font-style: italic; }
  #said { max-height: 40vh; overflow-y: auto; margin: .5rem 0; padding: 0; list-style: none; }
  #heard { position: absolute; width: 1px; height: 1px; overflow: hidden; clip-path: inset(50%); }
  [hidden] { display: none; }
</style>
<h1>Who is in <bdi id="topic">the room</bdi></h1>
<p id="state" role="status"></p>
<form id="enter">
  <label>Your name<input id="name" autocomplete="off" required maxlength="60" autofocus></label>
  <label>Room<input id="room" autocomplete="off" required maxlength="60" value="lobby"></label>
  <button>Join</button>
</form>
<div id="inside" hidden>
  <ul id="people" aria-label="Who is here"></ul>
  <form id="be"><label>Your status, for all to see<input id="status" autocomplete="off" maxlength="200"></label><button>Set status</button></form>
  <ol id="said" role="log" aria-label="What was said" tabindex="0"></ol>
  <form id="say"><label>Say something to all<input id="words" autocomplete="off" maxlength="2000"></label><button>Say</button></form>
  <button id="leave">Leave</button>
</div>
<p id="heard" role="status"></p>
<script src="presence.js"></script>
<script>
// A page of presence.js. A server tells both at its own port: open that in two tabs,
//     ./presence_node serve
//     http://127.0.0.1:4000/
// It connects to where it came from. As a file it connects to 127.0.0.1, at port 4000 or the one that ?port= says.
// ?name=ann&room=lobby joins at once, and so does ?token=, by which it signs in as phoenix.js does by its authToken.
const asked = new URLSearchParams(location.search);
const scheme = location.protocol === "https:" ? "wss" : "ws";
const place = location.host || "127.0.0.1:" + (asked.get("port") || "4000");
const show = id => document.getElementById(id);
const MOST_LINES = 200;
// What the server means where it closes the connection in place of a refusal, and where a token has ended.
const REFUSALS = { 1008: "no such room or name is taken (1008)", 1009: "that is too long (1009)" };
const UNAUTHORIZED = 3000;
const token = asked.get("token") || undefined;
let name, presence, room, began;

// Under which name a token lets one be seen, where it can be read.
function subject(token) {
  try {
    const claims = atob(token.split(".")[1].replaceAll("-", "+").replaceAll("_", "/"));
    return JSON.parse(new TextDecoder().decode(Uint8Array.from(claims, byte => byte.charCodeAt(0)))).sub;
  } catch {
    return "";
  }
}

// What another client says may be anything: only texts are shown, and no more of one than a few lines take.
const text = (value, most = 200) => typeof value === "string" ? value.slice(0, most) : "";

// A text of somebody's, which turns no other text round.
function own(value, className = "") {
  const part = document.createElement("bdi");
  part.className = className;
  part.textContent = value;
  return part;
}

// Since when somebody is here, by the clock of who looks: its own said milliseconds, or, as another client, a text.
const since = meta => Number.isSafeInteger(meta.since) ? new Date(meta.since).toLocaleTimeString() : text(meta.since, 40);

// One line a name. Somebody who is here twice, in two tabs, has two metas. A meta of another client may tell no time.
function draw() {
  show("people").replaceChildren(...room.list().map(({ key, metas }) => {
    const line = document.createElement("li");
    const times = metas.map(since).filter(time => time).join(", ");
    line.className = key === name ? "me" : "";
    line.append(own(text(key)), key === name ? " (you)" : "");
    if (times) line.append(own(", since " + times, "since"));
    for (const meta of metas) if (text(meta.status)) line.append(" — ", own(text(meta.status), "status"));
    return line;
  }));
}

// Who came and who went, for those who hear the page.
function tell(came, went) {
  const named = keys => keys.length > 3 ? keys.length + " people" : keys.map(key => text(key, 60)).join(", ");
  const parts = [[came, " came"], [went, " went"]].filter(([keys]) => keys.length > 0);
  show("heard").textContent = parts.map(([keys, deed]) => named(keys) + deed).join("; ");
}

// Draws who is here whenever that is known, and tells who came and went since it was known first.
function follow() {
  let isKnown = false, came = [], went = [];
  room.onJoin(key => came.push(key));
  room.onLeave(key => went.push(key));
  room.onSync(() => {
    if (room.state !== "joined") return;
    draw();
    if (isKnown) tell(came, went);
    isKnown = true;
    came = [];
    went = [];
  });
}

function hear(payload) {
  const line = document.createElement("li"), time = document.createElement("time");
  time.textContent = new Date().toLocaleTimeString([], { hour: "2-digit", minute: "2-digit" });
  line.append(time, " ", own(text(payload?.from) || "somebody"), ": ", own(text(payload?.text, 2000)));
  const box = show("said"), follows = box.scrollTop + box.clientHeight > box.scrollHeight - 40;
  box.append(line);
  if (box.children.length > MOST_LINES) box.firstChild.remove();
  if (follows) box.scrollTop = box.scrollHeight;
  if (document.activeElement === show("words")) show("say").scrollIntoView({ block: "nearest" });
}

// Back to the form, with why.
function lead_back(why) {
  presence?.close();
  show("people").replaceChildren();
  show("topic").textContent = "the room";
  show("state").textContent = why;
  show("inside").hidden = true;
  show("enter").hidden = false;
  show("name").focus();
}

// What is shown of the room's state.
const STATES = {
  joining: () => {},
  joined: () => show("state").replaceChildren("You are ", own(name), "."),
  connecting: ({ code, reason, wait }) => code === UNAUTHORIZED ? lead_back("The token has ended.") :
    show("state").textContent = `No connection (${text(reason) || code}). Next try in ${(wait / 1000).toFixed(1)} s.`,
  refused: ({ code, reason }) => lead_back(`Refused: ${REFUSALS[code] ?? text(reason)}.`),
  left: ({ reason }) => reason && lead_back(`The server has ended this: ${text(reason)}.`),
};

const meta = () => ({ since: began, status: show("status").value });
// What is refused by the server is shown. (Of a lost connection the state tells already.)
const complain = ({ reason }) => reason && (show("state").textContent = `Refused: ${text(reason)}.`);

function enter(asName, inRoom) {
  name = asName;
  began = Date.now();
  show("name").value = name;
  show("room").value = inRoom;
  show("topic").textContent = text("room:" + inRoom);
  show("state").textContent = "Connecting.";
  show("enter").hidden = true;
  show("inside").hidden = false;
  show("words").focus();
  presence = new Presence(`${scheme}://${place}/socket`, { token: () => token });
  room = presence.join("room:" + inRoom, name, meta());
  room.onState((state, why) => STATES[state](why));
  room.onShout(hear);
  follow();
}
show("enter").onsubmit = event => {
  event.preventDefault();
  const asName = show("name").value.trim(), inRoom = show("room").value.trim();
  if (asName && inRoom) enter(asName, inRoom); else lead_back("A name and a room are wanted.");
};
show("be").onsubmit = event => {
  event.preventDefault();
  room.track(name, meta()).catch(complain);
};
show("say").onsubmit = event => {
  event.preventDefault();
  const words = show("words").value;
  if (room.state !== "joined" || !words) return;
  show("words").value = "";
  room.shout({ from: name, text: words }).catch(error => {
    complain(error);
    show("words").value ||= words;
  });
};
show("leave").onclick = () => lead_back("You left.");
const first = asked.get("name") || (token && text(subject(token)));
if (first) enter(first, asked.get("room") || "lobby");
</script>
</html>
"##;
