//! The registered schemes, in the order of their names.

use super::microsoft::MicrosoftScheme;

/// A scheme in this library's table. RFC 3986, section 3.1, refers to a registry of schemes.
///
/// It is `Copy` and does not allocate. [`Scheme`](super::Scheme) has a constant for each of them.
/// Two are equal if they have the same name.
#[derive(Clone, Copy)]
pub enum RegisteredScheme {
    // schemes.tsv: variants
    /// `aaa`
    AAA,
    /// `aaas`
    AAAS,
    /// `about`
    About,
    /// `acap`
    ACAP,
    /// `acat`
    ACCT,
    /// `acr`
    ACR,
    /// `adiumxtra`
    AdiumXtra,
    /// `afp`
    AFP,
    /// `afs`
    AFS,
    /// `aim`
    AIM,
    /// `amss`
    AMSS,
    /// `android`
    Android,
    /// `appdata`
    AppData,
    /// `apt`
    APT,
    /// `attachment`
    Attachment,
    /// `aw`
    AW,
    /// `barion`
    Barion,
    /// `beshare`
    BeShare,
    /// `bitcoin`
    Bitcoin,
    /// `bitcoincash`
    BitcoinCash,
    /// `blob`
    Blob,
    /// `bolo`
    Bolo,
    /// `browserext`
    BrowserExt,
    /// `calculator`
    Calculator,
    /// `callto`
    CallTo,
    /// `cap`
    CAP,
    /// `cast`
    Cast,
    /// `casts`
    Casts,
    /// `chrome`
    Chrome,
    /// `chrome-extension`
    ChromeExtension,
    /// `cid`
    CID,
    /// `coap`
    CoAP,
    /// `coap+tcp`
    CoAPTCP,
    /// `coap+ws`
    CoAPWS,
    /// `coaps`
    CoAPS,
    /// `coaps+tcp`
    CoAPSTCP,
    /// `coaps+ws`
    CoAPSWS,
    /// `com-eventbrite-attendee`
    ComEventBriteAttendee,
    /// `content`
    Content,
    /// `conti`
    Conti,
    /// `crid`
    CRID,
    /// `cvs`
    CVS,
    /// `dab`
    DAB,
    /// `data`
    Data,
    /// `dav`
    DAV,
    /// `diaspora`
    Diaspora,
    /// `dict`
    DICT,
    /// `did`
    DID,
    /// `dis`
    DIS,
    /// `dlna-playcontainer`
    DLNAPlayContainer,
    /// `dlna-playsingle`
    DLNAPlaySingle,
    /// `dns`
    DNS,
    /// `dntp`
    DNTP,
    /// `dpp`
    DPP,
    /// `drm`
    DRM,
    /// `drop`
    Drop,
    /// `dtn`
    DTN,
    /// `dvb`
    DVB,
    /// `ed2k`
    ED2K,
    /// `elsi`
    ELSI,
    /// `example`
    Example,
    /// `facetime`
    FaceTime,
    /// `fax`
    Fax,
    /// `feed`
    Feed,
    /// `feedready`
    FeedReady,
    /// `file`
    File,
    /// `filesystem`
    FileSystem,
    /// `finger`
    Finger,
    /// `fish`
    Fish,
    /// `fm`
    FM,
    /// `ftp`
    FTP,
    /// `fuchsia-pkg`
    FuchsiaPkg,
    /// `geo`
    Geo,
    /// `gg`
    GG,
    /// `git`
    Git,
    /// `gizmoproject`
    GizmoProject,
    /// `go`
    Go,
    /// `gopher`
    Gopher,
    /// `graph`
    Graph,
    /// `gtalk`
    GTalk,
    /// `h323`
    H323,
    /// `ham`
    HAM,
    /// `hcap`
    HCAP,
    /// `hcp`
    HCP,
    /// `http`
    HTTP,
    /// `https`
    HTTPS,
    /// `hxxp`
    HXXP,
    /// `hxxps`
    HXXPS,
    /// `hydrazone`
    HydraZone,
    /// `iax`
    IAX,
    /// `icap`
    ICAP,
    /// `icon`
    Icon,
    /// `im`
    IM,
    /// `imap`
    IMAP,
    /// `info`
    Info,
    /// `iotdisc`
    IoTDisc,
    /// `ipn`
    IPN,
    /// `ipp`
    IPP,
    /// `ipps`
    IPPS,
    /// `irc`
    IRC,
    /// `irc6`
    IRC6,
    /// `ircs`
    IRCS,
    /// `iris`
    IRIS,
    /// `iris.beep`
    IRISBEEP,
    /// `iris.lwz`
    IRISLWZ,
    /// `iris.xpc`
    IRISXPC,
    /// `iris.xpcs`
    IRISXPCS,
    /// `isostore`
    IsoStore,
    /// `itms`
    ITMS,
    /// `jabber`
    Jabber,
    /// `jar`
    JAR,
    /// `jms`
    JMS,
    /// `keyparc`
    KeyParc,
    /// `lastfm`
    LastFM,
    /// `ldap`
    LDAP,
    /// `ldaps`
    LDAPS,
    /// `lorawan`
    LoRaWAN,
    /// `lvlt`
    LVLT,
    /// `magnet`
    Magnet,
    /// `mailserver`
    MailServer,
    /// `mailto`
    MailTo,
    /// `maps`
    Maps,
    /// `market`
    Market,
    /// `message`
    Message,
    /// `microsoft.windows.camera`
    MicrosoftWindowsCamera,
    /// `microsoft.windows.camera.multipicker`
    MicrosoftWindowsCameraMultiPicker,
    /// `microsoft.windows.camera.picker`
    MicrosoftWindowsCameraPicker,
    /// `mid`
    MID,
    /// `mms`
    MMS,
    /// `modem`
    Modem,
    /// `mongodb`
    MongoDB,
    /// `moz`
    Moz,
    /// `msnim`
    MSNIM,
    /// `msrp`
    MSRP,
    /// `msrps`
    MSRPS,
    /// `mss`
    MSS,
    /// `mtqp`
    MTQP,
    /// `mumble`
    Mumble,
    /// `mupdate`
    MUpdate,
    /// `mvn`
    MVN,
    /// `news`
    News,
    /// `nfs`
    NFS,
    /// `ni`
    NI,
    /// `nih`
    NIH,
    /// `nntp`
    NNTP,
    /// `notes`
    Notes,
    /// `ocf`
    OCF,
    /// `oid`
    OID,
    /// `onenote`
    OneNote,
    /// `onenote-cmd`
    OneNoteCMD,
    /// `opaquelocktoken`
    OpaqueLockToken,
    /// `openpgp4fpr`
    OpenPGP4FPR,
    /// `pack`
    Pack,
    /// `palm`
    Palm,
    /// `paparazzi`
    Paparazzi,
    /// `pkcs11`
    PKCS11,
    /// `platform`
    Platform,
    /// `pop`
    POP,
    /// `pres`
    Pres,
    /// `prospero`
    Prospero,
    /// `proxy`
    Proxy,
    /// `psyc`
    PSYC,
    /// `pwid`
    PWID,
    /// `qb`
    QB,
    /// `query`
    Query,
    /// `redis`
    Redis,
    /// `rediss`
    RedisS,
    /// `reload`
    Reload,
    /// `res`
    Res,
    /// `resource`
    Resource,
    /// `rmi`
    RMI,
    /// `rsync`
    RSync,
    /// `rtmfp`
    RTMFP,
    /// `rtmp`
    RTMP,
    /// `rtsp`
    RTSP,
    /// `rtsps`
    RTSPS,
    /// `rtspu`
    RTSPU,
    /// `secondlife`
    SecondLife,
    /// `service`
    Service,
    /// `session`
    Session,
    /// `sftp`
    SFTP,
    /// `sgn`
    SGN,
    /// `shttp`
    SHTTP,
    /// `sieve`
    Sieve,
    /// `simpleledger`
    SimpleLedger,
    /// `sip`
    SIP,
    /// `sips`
    SIPS,
    /// `skype`
    Skype,
    /// `smb`
    SMB,
    /// `sms`
    SMS,
    /// `smtp`
    SMTP,
    /// `snews`
    SNews,
    /// `snmp`
    SNMP,
    /// `soap.beep`
    SOAPBEEP,
    /// `soap.beeps`
    SOAPBEEPS,
    /// `soldat`
    Soldat,
    /// `spiffe`
    SPIFFE,
    /// `spotify`
    Spotify,
    /// `ssh`
    SSH,
    /// `steam`
    Steam,
    /// `stun`
    STUN,
    /// `stuns`
    STUNS,
    /// `submit`
    Submit,
    /// `svn`
    SVN,
    /// `tag`
    Tag,
    /// `teamspeak`
    TeamSpeak,
    /// `tel`
    Tel,
    /// `teliaeid`
    TeliaEID,
    /// `telnet`
    Telnet,
    /// `tftp`
    TFTP,
    /// `things`
    Things,
    /// `thismessage`
    ThisMessage,
    /// `tip`
    TIP,
    /// `tn3270`
    TN3270,
    /// `tool`
    Tool,
    /// `turn`
    TURN,
    /// `turns`
    TURNS,
    /// `tv`
    TV,
    /// `udp`
    UDP,
    /// `unreal`
    Unreal,
    /// `urn`
    URN,
    /// `ut2004`
    UT2004,
    /// `v-event`
    VEvent,
    /// `vemmi`
    VEMMI,
    /// `ventrilo`
    Ventrilo,
    /// `videotex`
    Videotex,
    /// `view-source`
    ViewSource,
    /// `vnc`
    VNC,
    /// `wais`
    WAIS,
    /// `webcal`
    Webcal,
    /// `wpid`
    WPID,
    /// `ws`
    WS,
    /// `wss`
    WSS,
    /// `wtai`
    WTAI,
    /// `wyciwyg`
    WYCIWYG,
    /// `xcon`
    XCON,
    /// `xcon-userid`
    XCONUserID,
    /// `xfire`
    Xfire,
    /// `xmlrpc.beep`
    XMLRPCBEEP,
    /// `xmlrpc.beeps`
    XMLRPCBEEPS,
    /// `xmpp`
    XMPP,
    /// `xri`
    XRI,
    /// `ymsgr`
    YMSGR,
    /// `z39.50`
    Z3950,
    /// `z39.50r`
    Z3950R,
    /// `z39.50s`
    Z3950S,
    // schemes.tsv: end
    /// A scheme whose name begins with `ms-`
    Microsoft(MicrosoftScheme),
}
